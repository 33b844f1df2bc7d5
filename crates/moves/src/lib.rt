// Words moved up, copied, cleared, and scanned for zeros.
#![tactic(auto)]

ghost use Rattle.std.specs.Prelude.{◌≡◌, ◌+◌, ◌≤◌, length};
ghost use Rattle.moves.specs.Moves.{Raised, Copied, Cleared, Clear, all_zero};

// The words from `low` up to `end` moved up by `gap`.
pub fn move_up(s: &mut [u32], low: usize, end: usize, gap: usize)
    requires order { low ≤ end }
    requires inside { end + gap ≤ length s.old }
    ensures raised { Raised gap low end s.old s.new }
{
    s.copy_within(low..end, low + gap);
}

// n words copied, to lower ones or to others.
pub fn copy_within(s: &mut [u32], to: usize, from: usize, n: usize)
    requires into { to + n ≤ length s.old }
    requires inside { from + n ≤ length s.old }
    requires clear { Clear to from n }
    ensures copied { Copied to from n s.old s.new }
{
    s.copy_within(from..from + n, to);
}

// n words made zero.
// Kept: a place and a count, as of the other moves: `Cleared` speaks of the whole, word by word, and a subslice's `fill` leaves to each caller what stays.
pub fn clear(s: &mut [u32], at: usize, n: usize)
    requires inside { at + n ≤ length s.old }
    ensures cleared { Cleared at n s.old s.new }
{
    s[at..at + n].fill(0);
}

// Whether words are all zero. It reads each: `all`, which stops at the first other word, is not vectorised.
// Kept: by index. Tried: `fold` over the words. It proves, but knows no place, so that no edit of it can pass over a word by its place.
#[tactic(auto, using(crate::proofs::Zeros::zero_begin))]
pub fn all_zero(words: &[u32]) -> bool
    ensures zero { result ≡ all_zero words.now }
{
    let mut ok = true;
    for i in 0..words.len() {
        ok &= words[i] == 0;
    }
    ok
}
