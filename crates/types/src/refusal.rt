// 01's table of refusals: a name for each number, in order of precedence (specs/Refusal.antt).
ghost use Rattle.std.specs.Prelude.{◌≡◌};
ghost use Rattle.types.specs.Refusal.{refusal_number};

use std::error::Error;
use std::fmt;

#[derive(Clone, Copy, Debug, PartialEq, Eq)]
pub enum Refusal {
    // The answer slice.
    AnswerTooShort = 1,
    // The request.
    WrongCount = 2,
    BadField = 3,
    IndexTooHigh = 4,
    // The stores.
    DamagedStore = 5,
    // What the request finds.
    NothingThere = 6,
    IncarnationNotHigher = 7,
    BaseDiffers = 8,
    LayoutUnderDelta = 9,
    NoNumberUnderDelta = 10,
    // What it commits.
    CommitRule = 11,
    NothingToExchange = 12,
    // What it materialises.
    NotMaterializable = 13,
    // Units.
    UnitsExhausted = 14,
}

// The number that a call answers.
impl From<Refusal> for u32 {
    ghost from_gives = { λ refusal number. number ≡ refusal_number refusal };

    fn from(refusal: Refusal) -> u32 {
        refusal as u32
    }
}

impl fmt::Display for Refusal {
    fn fmt<W: fmt::Write>(&self, f: &mut fmt::Formatter<W>) -> fmt::Result {
        match self {
            Refusal::AnswerTooShort => write!(f, "the answer slice has under 451 words"),
            Refusal::WrongCount => write!(f, "the request's count of words is wrong"),
            Refusal::BadField => write!(f, "a field breaks its rule"),
            Refusal::IndexTooHigh => write!(f, "the transaction index is too high"),
            Refusal::DamagedStore => write!(f, "a store's words are damaged"),
            Refusal::NothingThere => write!(f, "nothing is there"),
            Refusal::IncarnationNotHigher => write!(f, "the incarnation is not higher"),
            Refusal::BaseDiffers => write!(f, "the base differs from the recorded one"),
            Refusal::LayoutUnderDelta => write!(f, "a value with a layout is under a delta"),
            Refusal::NoNumberUnderDelta => write!(f, "a value without a number is under a delta"),
            Refusal::CommitRule => write!(f, "a write's kind does not fit the committed group"),
            Refusal::NothingToExchange => write!(f, "no raw committed value is there to exchange"),
            Refusal::NotMaterializable => {
                write!(f, "what is materialised is neither resolved nor unresolved")
            }
            Refusal::UnitsExhausted => write!(f, "the store has too few units"),
        }
    }
}

impl Error for Refusal {}
