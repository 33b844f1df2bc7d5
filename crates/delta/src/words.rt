// A delta in 17 words: M, H, L and the size of u, four words each, low word first, then the sign.
// Kept: words and a place among them, for the reason in `number::words`.
ghost use Rattle.std.specs.Prelude.{◌≡◌, ◌+◌, ◌≤◌, length, take, drop};
ghost use Rattle.std.proofs.lemmas.List.Edits.{sets};
ghost use Rattle.delta.specs.Delta.{delta_width, delta_ok, delta_words};
ghost use Rattle.delta.specs.Record.{exact, op_at};

use crate::DeltaOp;

pub const DELTA_WIDTH: usize = 17;

// What the words at `at` hold, the sign as it stands.
pub fn read(s: &[u32], at: usize) -> DeltaOp
    requires fits { at + delta_width ≤ length s.now }
    ensures value { result ≡ op_at (take delta_width (drop at s.now)) }
{
    let limit = number::words::read(s, at);
    let high = number::words::read(s, at + 4);
    let low = number::words::read(s, at + 8);
    let update = number::words::read(s, at + 12);
    let sign = u64::from(s[at + 16]);
    DeltaOp {
        limit,
        high,
        low,
        update,
        sign,
    }
}

// Whether the words at `at` are a delta.
pub fn is_delta(s: &[u32], at: usize) -> bool
    requires fits { at + delta_width ≤ length s.now }
    ensures checked { result ≡ delta_ok (take delta_width (drop at s.now)) }
{
    read(s, at).is_valid()
}

// Puts a delta into the words at `at`; the other words stay.
pub fn write(s: &mut [u32], at: usize, delta: DeltaOp)
    requires fits { at + delta_width ≤ length s.old }
    ensures written { s.new ≡ sets s.old at (delta_words (exact delta)) }
{
    number::words::write(s, at, delta.limit);
    number::words::write(s, at + 4, delta.high);
    number::words::write(s, at + 8, delta.low);
    number::words::write(s, at + 12, delta.update);
    s[at + 16] = delta.sign_word();
}
