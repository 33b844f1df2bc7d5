// Numbers in 32-bit words, four to a number, low word first.
// Kept: words and a place among them. Tried: a number's own subslice. `read(&s[at + 4..])` is no plainer than `read(s, at + 4)`, and each caller then needs a law
// to turn what it says of the subslice into what it says of the words.
#![tactic(auto, unfolding(crate::specs::Words::digits, crate::specs::Words::value_of_words))]

ghost use Rattle.std.specs.Prelude.{◌≡◌, ◌+◌, ◌≤◌, length, take, drop};
ghost use Rattle.std.proofs.lemmas.List.Edits.{sets};
ghost use Rattle.number.specs.Number.{value_of, number_of};
ghost use Rattle.number.specs.Words.{digits, value_of_words};

use super::Number;

// The half that the two words at `at` hold.
// Kept: `probe::pair` is the same sum; neither crate stands on the other, and each says it in the words of its own definition.
fn read_half(s: &[u32], at: usize) -> u64
    requires fits { at + 2 ≤ length s.now }
    ensures value { result ≡ value_of_words (take 2 (drop at s.now)) }
{
    u64::from(s[at]) + 4294967296 * u64::from(s[at + 1])
}

// The number that the four words at `at` hold.
pub fn read(s: &[u32], at: usize) -> Number
    requires fits { at + 4 ≤ length s.now }
    ensures value { result ≡ number_of (value_of_words (take 4 (drop at s.now))) }
{
    let lo = read_half(s, at);
    let hi = read_half(s, at + 2);
    Number { lo, hi }
}

// Puts a half into the two words at `at`.
fn write_half(s: &mut [u32], at: usize, half: u64)
    requires fits { at + 2 ≤ length s.old }
    ensures written { s.new ≡ sets s.old at (digits 2 half) }
{
    s[at] = (half % 4294967296) as u32;
    s[at + 1] = (half / 4294967296) as u32;
}

// Puts a number into the four words at `at`; the other words stay.
pub fn write(s: &mut [u32], at: usize, n: Number)
    requires fits { at + 4 ≤ length s.old }
    ensures written { s.new ≡ sets s.old at (digits 4 (value_of n)) }
{
    write_half(s, at, n.lo);
    write_half(s, at + 2, n.hi);
}
