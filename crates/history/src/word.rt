// Words from bytes, the lowest byte first.
ghost use Rattle.std.specs.Prelude.{◌≡◌, ◌+◌, ◌*◌, ◌≤◌, ◌++◌, length, drop};
ghost use Rattle.history.specs.Input.{word_from, words_from};

// The word that the four bytes at `at` hold.
pub fn word_at(b: &[u8], at: usize) -> u32
    requires inside { at + 4 ≤ length b.now }
    ensures word { result ≡ word_from (drop at b.now) }
{
    u32::from_le_bytes([b[at], b[at + 1], b[at + 2], b[at + 3]])
}

// Puts the first `n` words of the bytes into the first `n` words; the other words stay.
pub fn load(b: &[u8], words: &mut [u32], n: usize)
    requires whole { 4 * n ≤ length b.now }
    requires room { n ≤ length words.old }
    ensures loaded { words.new ≡ words_from n b.now ++ drop n words.old }
{
    for i in 0..n {
        words[i] = word_at(b, 4 * i);
    }
}
