// The sixteen kinds of request: how many words each has, and where its index stands.
ghost use Rattle.std.specs.Prelude.{◌≡◌};
ghost use Rattle.request.specs.Table.{number_of, row_of};
ghost use Rattle.request.specs.Rows.{cells_of, layout};

use super::kind::Kind;
use types::response::MOST_TAGS;
use types::value::VALUE_WIDTH;

// How the words of a kind go on after the fixed ones.
#[derive(Clone, Copy, Debug, PartialEq, Eq)]
pub enum Tail {
    // Not at all.
    Alone,
    // With so many words for each tag of a set, which is the last two of the fixed words.
    BySet(u8),
    // With words as often as a field says: the field's place, the most that it may say, and how many words each.
    ByCount(u8, u8, u8),
    // No request is of this kind, whatever its words.
    Absent,
}

// The place of an index, and the last that is served.
#[derive(Clone, Copy, Debug, PartialEq, Eq)]
pub struct IndexField {
    pub place: usize,
    pub last: u32,
}

#[derive(Clone, Copy)]
pub struct Row {
    // Words after the head, the tail left out.
    pub fixed: usize,
    pub tail: Tail,
    pub index: Option<IndexField>,
}

// A row in bytes, so that the whole table is a few words: `fixed`, the tail, the place of the index, and how often a request adds to its index.
#[derive(Clone, Copy)]
pub struct Cells(pub u8, Tail, Option<u8>, pub u8);

const VALUE: u8 = VALUE_WIDTH as u8;

// A value for each tag.
const VALUES: Tail = Tail::BySet(VALUE);

// An index to which nothing is added can be any word.
pub const LARGEST: u32 = 4294967295;

// A static stands in memory once; a constant is built anew at each look.
static TABLE: [Cells; 16] = [
    // 0: last committed
    Cells(1, Tail::Alone, None, 0),
    // 1 to 7: base, write, delta, estimate, remove, fetch, materialize
    Cells(1 + VALUE, Tail::Alone, None, 0),
    Cells(3 + VALUE, Tail::Alone, Some(2), 1),
    Cells(19, Tail::Alone, Some(2), 1),
    Cells(2, Tail::Alone, Some(2), 1),
    Cells(2, Tail::Alone, Some(2), 1),
    Cells(2, Tail::Alone, Some(2), 1),
    Cells(2, Tail::Alone, Some(2), 2),
    // 8 to 10: group base, exchange, group write
    Cells(3, VALUES, None, 0),
    Cells(2 + VALUE, Tail::Alone, None, 0),
    Cells(5, VALUES, Some(2), 1),
    // 11 to 15: group estimate, remove, fetch, size, finalize
    Cells(2, Tail::Alone, Some(2), 1),
    Cells(2, Tail::Alone, Some(2), 1),
    Cells(3, Tail::Alone, Some(3), 1),
    Cells(2, Tail::Alone, Some(2), 1),
    Cells(2, Tail::Alone, Some(2), 1),
];

// The largest count of words after a head: a group write of all tags.
pub const LONGEST_COUNT: usize = 5 + VALUE_WIDTH * MOST_TAGS;

pub fn cells_of(kind: Kind) -> Cells
    ensures cells { result ≡ cells_of (row_of (number_of kind)) }
{
    TABLE[kind.number()]
}

pub fn row_of(kind: Kind) -> Row
    ensures row { result ≡ layout (row_of (number_of kind)) }
{
    let cells = cells_of(kind);
    let last = LARGEST - cells.3 as u32;
    let index = match cells.2 {
        Some(place) => Some(IndexField {
            place: place as usize,
            last,
        }),
        None => None,
    };
    Row {
        fixed: cells.0 as usize,
        tail: cells.1,
        index,
    }
}
