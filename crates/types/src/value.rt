// A value with its layout, and the words that it is kept in.
// Kept: words and a place among them, for the reason in `number::words`.
ghost use Rattle.std.specs.Prelude.{◌≡◌, not, ◌||◌, ◌+◌, ◌≤◌, eqb, length};
ghost use Rattle.std.proofs.lemmas.List.Edits.{sets};
ghost use Rattle.types.specs.Value.{value_width, value_at, write_op_kind, is_creation, is_deletion, is_exchanged, byte_length, layout_of, has_number, number_in, same_bytes, value_ok};
ghost use Rattle.types.specs.ValueWithLayout.{value_from, words_of, bytes_len_of, as_u128_of};

use number::{Number, words};

// The words of a value: `value_width`.
pub const VALUE_WIDTH: usize = 7;

// Bits 0 to 28 of a head are the byte length.
const LENGTH_RANGE: u32 = 536870912;

const MAX_LENGTH: u32 = 1048576;
// Only a value of so many bytes can be a number.
const NUMBER_LENGTH: u32 = 16;

// What a value does to what was there, by bits 30 and 31 of its head.
enum WriteOpKind {
    Creation = 0,
    Modification = 1,
    Deletion = 2,
}

#[derive(Clone, Copy)]
pub struct ValueWithLayout {
    pub head: u32,
    pub layout: u32,
    pub handle: u32,
    pub number: Number,
}

// Why deltas cannot stand above a value: it is no deletion, and its bytes are not those of a number.
#[derive(Clone, Copy, Debug, PartialEq, Eq)]
pub struct NotANumber;

impl ValueWithLayout {
    pub fn read(s: &[u32], at: usize) -> ValueWithLayout
        requires inside { at + value_width ≤ length s.now }
        ensures value { result ≡ value_from (value_at at s.now) }
    {
        let head = s[at];
        let layout = s[at + 1];
        let handle = s[at + 2];
        let number = words::read(s, at + 3);
        ValueWithLayout {
            head,
            layout,
            handle,
            number,
        }
    }

    // Puts the value into the words at `at`; the other words stay.
    pub fn write(self, s: &mut [u32], at: usize)
        requires inside { at + value_width ≤ length s.old }
        ensures written { s.new ≡ sets s.old at (words_of self) }
    {
        s[at] = self.head;
        s[at + 1] = self.layout;
        s[at + 2] = self.handle;
        words::write(s, at + 3, self.number);
    }

    // Kept: the two bits as a number, since one of the four is no kind: `ok` tests for it.
    #[tactic(auto, unfolding(crate::specs::Value::write_op_kind, crate::specs::ValueWithLayout::words_of))]
    fn kind_bits(self) -> u32
        ensures bits { result ≡ write_op_kind (words_of self) }
    {
        self.head >> 30
    }

    #[tactic(auto, unfolding(crate::specs::Value::is_creation))]
    pub fn is_creation(self) -> bool
        ensures creation { result ≡ is_creation (words_of self) }
    {
        self.kind_bits() == WriteOpKind::Creation as u32
    }

    #[tactic(auto, unfolding(crate::specs::Value::is_deletion))]
    pub fn is_deletion(self) -> bool
        ensures deletion { result ≡ is_deletion (words_of self) }
    {
        self.kind_bits() == WriteOpKind::Deletion as u32
    }

    // `Exchanged`, where it is not `RawFromStorage`.
    #[tactic(auto, unfolding(crate::specs::Value::is_exchanged, crate::specs::ValueWithLayout::words_of))]
    pub fn is_exchanged(self) -> bool
        ensures exchanged { result ≡ is_exchanged (words_of self) }
    {
        (self.head >> 29) % 2 == 1
    }

    #[tactic(auto, unfolding(crate::specs::Value::layout_of, crate::specs::ValueWithLayout::words_of))]
    pub fn has_layout(self) -> bool
        ensures layout { result ≡ not (eqb (layout_of (words_of self)) 0) }
    {
        self.layout != 0
    }

    #[tactic(auto, unfolding(crate::specs::Value::byte_length, crate::specs::ValueWithLayout::words_of))]
    fn byte_length(self) -> u32
        ensures length { result ≡ byte_length (words_of self) }
    {
        self.head % LENGTH_RANGE
    }

    // How many bytes a value has. A deletion has none, which is not the same as 0 bytes.
    #[tactic(auto, unfolding(crate::specs::Value::bytes_len, crate::specs::ValueWithLayout::bytes_len_of, crate::specs::ValueWithLayout::length_answer))]
    pub fn bytes_len(self) -> Option<u32>
        ensures bytes { result ≡ bytes_len_of (words_of self) }
    {
        if self.is_deletion() {
            return None;
        }
        Some(self.byte_length())
    }

    // The lengths of bytes are compared in place of the bytes; what has none is like only what has none.
    // Kept: no `PartialEq`, since values of the same bytes may differ in kind, layout and handle.
    pub fn same_bytes(self, other: ValueWithLayout) -> bool
        ensures same { result ≡ same_bytes (words_of self) (words_of other) }
    {
        self.bytes_len() == other.bytes_len()
    }

    #[tactic(auto, unfolding(crate::specs::Value::has_number))]
    fn has_number(self) -> bool
        ensures number { result ≡ has_number (words_of self) }
    {
        !self.is_deletion() && self.byte_length() == NUMBER_LENGTH
    }

    // What deltas above the value find in it: a deletion has no number.
    #[tactic(auto, unfolding(crate::specs::Value::has_number, crate::specs::ValueWithLayout::as_u128_of))]
    pub fn as_u128(self) -> Result<Option<Number>, NotANumber>
        ensures number { result ≡ as_u128_of (words_of self) }
    {
        if self.is_deletion() {
            return Ok(None);
        }
        if self.has_number() {
            return Ok(Some(self.number));
        }
        Err(NotANumber)
    }

    // Raw has no layout.
    fn layout_ok(self) -> bool
        ensures rule { result ≡ (is_exchanged (words_of self) || eqb (layout_of (words_of self)) 0) }
    {
        self.is_exchanged() || !self.has_layout()
    }

    // A deletion has length 0.
    fn deletion_ok(self) -> bool
        ensures rule { result ≡ (not (is_deletion (words_of self)) || eqb (byte_length (words_of self)) 0) }
    {
        !self.is_deletion() || self.byte_length() == 0
    }

    // What has no number has its words 0.
    fn number_ok(self) -> bool
        ensures rule { result ≡ (has_number (words_of self) || eqb (number_in (words_of self)) 0) }
    {
        self.has_number() || self.number.is_zero()
    }

    // The rule of a value's fields.
    #[tactic(auto, unfolding(crate::specs::Value::value_ok))]
    pub fn ok(self) -> bool
        ensures rule { result ≡ value_ok (words_of self) }
    {
        self.kind_bits() <= WriteOpKind::Deletion as u32
            && self.byte_length() <= MAX_LENGTH
            && self.layout_ok()
            && self.deletion_ok()
            && self.number_ok()
    }
}

// Whether the words at `at` keep the rule of a value's fields.
pub fn value_ok(s: &[u32], at: usize) -> bool
    requires inside { at + value_width ≤ length s.now }
    ensures rule { result ≡ value_ok (value_at at s.now) }
{
    ValueWithLayout::read(s, at).ok()
}
