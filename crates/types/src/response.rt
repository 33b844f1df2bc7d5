// Heads, of requests and of answers, and the kinds of answers.
ghost use Rattle.std.specs.Prelude.{◌≡◌, ◌^◌, ◌≤◌, ◌<◌};
ghost use Rattle.types.specs.Response.{head_of, kind_in, count_in, answer_number};

use super::value::VALUE_WIDTH;

// Bits 28 to 31 of a head are a kind, bits 0 to 27 count the words after it.
pub const KIND_RANGE: u32 = 268435456;

// What an answer tells.
#[derive(Clone, Copy, Debug, PartialEq, Eq)]
pub enum AnswerKind {
    Done = 0,
    Versioned = 1,
    Resolved = 2,
    Unresolved = 3,
    Uninitialized = 4,
    TagNotFound = 5,
    Dependency = 6,
    DeltaApplicationFailure = 7,
    Size = 8,
    Committed = 9,
    WroteOutside = 10,
    VersionedAtBase = 11,
}

// The number in a head.
impl From<AnswerKind> for u32 {
    ghost from_gives = { λ kind number. number ≡ answer_number kind };

    fn from(kind: AnswerKind) -> u32 {
        kind as u32
    }
}

// Tags are 0 to 63, and a set of them has two words.
pub const MOST_TAGS: usize = 64;

pub const SET_WIDTH: usize = 2;

// The longest answer: a head, a set and a value for each tag.
pub const ANSWER_WIDTH: usize = 1 + (SET_WIDTH + MOST_TAGS * VALUE_WIDTH);

pub fn head(kind: u32, count: usize) -> u32
    requires kind { kind ≤ 15 }
    requires count { count < 2 ^ 28 }
    ensures head { result ≡ head_of kind count }
{
    kind * KIND_RANGE + count as u32
}

pub fn kind_in(head: u32) -> usize
    ensures kind { result ≡ kind_in «head» }
{
    (head / KIND_RANGE) as usize
}

pub fn count_in(head: u32) -> usize
    ensures count { result ≡ count_in «head» }
{
    (head % KIND_RANGE) as usize
}
