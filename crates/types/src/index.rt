// Transaction indexes, and the shifted indexes by which the stores order what is written.
ghost use Rattle.std.specs.Prelude.{◌≡◌, ◌<◌};
ghost use Rattle.types.specs.Index.{shift, index_bound, shifted_of, word_of, index_of};

pub type TxnIndex = u32;

pub type Incarnation = u32;

// To keep a base value at the lowest index without conflicting with transaction index 0, this
// wraps the index and increments it by 1. The field is private: a count of the one kind never
// meets a count of the other but through these conversions.
// Kept: no `From`, to or from u32: a transaction index is a u32 too, and a conversion by its type would take the one for the other.
#[derive(Clone, Copy, Debug, PartialEq, Eq, PartialOrd, Ord)]
pub struct ShiftedTxnIndex(u32);

// What the base has in place of an index.
#[derive(Clone, Copy, Debug, PartialEq, Eq)]
pub struct StorageVersion;

impl ShiftedTxnIndex {
    pub fn new(real_idx: TxnIndex) -> Self
        requires served { real_idx < index_bound }
        ensures shifted { result ≡ shifted_of (shift real_idx) }
    {
        ShiftedTxnIndex(real_idx + 1)
    }

    #[tactic(auto, using(crate::proofs::IndexLaws::index_checked))]
    pub fn idx(self) -> Result<TxnIndex, StorageVersion>
        ensures unshifted { result ≡ index_of (word_of self) }
    {
        self.0.checked_sub(1).ok_or(StorageVersion)
    }

    pub fn zero_idx() -> Self
        ensures base { result ≡ shifted_of 0 }
    {
        ShiftedTxnIndex(0)
    }

    // The stores keep a shifted index as a word.
    pub fn from_word(word: u32) -> Self
        ensures stored { result ≡ shifted_of word }
    {
        ShiftedTxnIndex(word)
    }

    pub fn word(self) -> u32
        ensures stored { result ≡ word_of self }
    {
        self.0
    }
}
