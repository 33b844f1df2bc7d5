// The output: the lines that wait to be written. Digits are capitals, by a function of our own.
ghost use Rattle.std.specs.Prelude.{◌≡◌, ◌+◌, ◌<◌, ◌≤◌, length, slice_index, take, is_err};
ghost use Rattle.types.specs.Refusal.{result_number};
ghost use Rattle.types.specs.Response.{count_in, answer_width};
ghost use Rattle.history.specs.State.{longest_line};
ghost use Rattle.history.specs.Line.{digit_of};
ghost use Rattle.history.specs.Moved.{Handed};

use std::io;
use std::io::{ErrorKind, Write};
use types::refusal::Refusal;
use types::response;
use types::response::ANSWER_WIDTH;

// The bytes of the longest line.
pub const LINE: usize = 9 * ANSWER_WIDTH;

// A block of the output, and how much of it was written.
#[derive(Drop)]
pub struct Output<const N: usize> {
    pub bytes: [u8; N],
    // Bytes that wait.
    pub put: usize,
    // Bytes that were handed to write, modulo 2^64.
    pub sent: u64,
    ghost within: { put ≤ length bytes },
    ghost room: { longest_line ≤ N },
}

impl<const N: usize> Output<N> {
    ghost use Rattle.std.specs.Prelude.{◌*◌, [], ◌∷◌, false};
    ghost use Rattle.model.specs.Model.{refused, answered};
    ghost use Rattle.mvhashmap.specs.Run.{shown};
    ghost use Rattle.history.specs.Line.{hex_word, spaced, decimal, line_of};
    ghost use Rattle.history.specs.State.{start, emptied};
    ghost use Rattle.history.specs.Writing.{output_state, Puts};

    pub fn new() -> Self
        requires room { longest_line ≤ N }
        ensures start { output_state result false ≡ start }
    {
        Output {
            bytes: [0; N],
            put: 0,
            sent: 0,
        }
    }

    // How many bytes wait.
    pub fn waiting(&self) -> usize
        ensures waiting { result ≡ self.now.put }
    {
        self.put
    }

    // How many more can wait.
    pub fn room(&self) -> usize
        ensures room { self.now.put + result ≡ N }
    {
        N - self.put
    }

    fn push(&mut self, b: u8)
        requires room { self.old.put < N }
        ensures puts { Puts self.old self.new (b ∷ []) }
    {
        self.bytes[self.put] = b;
        self.put += 1;
    }

    // Puts the 8 digits of a word.
    // Kept: no `write!`, which promises its bytes only where it gives Ok, and nowhere that it does; what is put here cannot fail.
    fn put_word(&mut self, w: u32)
        requires room { self.old.put + 8 ≤ N }
        ensures puts { Puts self.old self.new (hex_word w) }
    {
        // The count goes up once: at each digit it would go through memory.
        let at = self.put;
        for k in 0..8usize {
            self.bytes[at + k] = digit((w >> (28 - 4 * k)) % 16);
        }
        self.put = at + 8;
    }

    // Puts each word after a space.
    fn put_spaced(&mut self, words: &[u32])
        requires room { self.old.put + 9 * length words.now ≤ N }
        ensures puts { Puts self.old self.new (spaced words.now) }
    {
        for w in words {
            self.push(b' ');
            self.put_word(*w);
        }
    }

    // Puts the line of an answer's words.
    fn put_answer(&mut self, words: &[u32])
        requires some { 1 ≤ length words.now }
        requires room { self.old.put + 9 * length words.now ≤ N }
        ensures puts { Puts self.old self.new (line_of (answered words.now)) }
    {
        self.put_word(words[0]);
        self.put_spaced(&words[1..]);
        self.push(b'\n');
    }

    // Puts a number of one or two digits.
    // Kept: no `write!`, as for `put_word`; itoa would put its digits into a buffer of 40 bytes first.
    fn put_decimal(&mut self, n: u32)
        requires small { n < 100 }
        requires room { self.old.put + 2 ≤ N }
        ensures puts { Puts self.old self.new (decimal n) }
    {
        if n >= 10 {
            self.push(digit(n / 10));
        }
        self.push(digit(n % 10));
    }

    // Puts the line of a refusal.
    fn put_refusal(&mut self, n: u32)
        requires small { n < 100 }
        requires room { self.old.put + 6 ≤ N }
        ensures puts { Puts self.old self.new (line_of (refused n)) }
    {
        self.push(b'n');
        self.push(b'o');
        self.push(b' ');
        self.put_decimal(n);
        self.push(b'\n');
    }

    // Puts the line of what a call shows.
    pub fn put_line(&mut self, called: Result<(), Refusal>, answer: &[u32])
        requires whole { answer_width ≤ length answer.now }
        requires few { result_number called ≡ 0 → count_in (slice_index answer.now 0) < answer_width }
        requires room { self.old.put + longest_line ≤ N }
        ensures puts { Puts self.old self.new (line_of (shown (result_number called) answer.now)) }
    {
        match called {
            Ok(()) => {
                let n = response::count_in(answer[0]) + 1;
                self.put_answer(&answer[..n]);
            }
            Err(refusal) => self.put_refusal(u32::from(refusal)),
        }
    }

    // Writes what waits.
    pub fn write_waiting<W: Write>(&mut self, writer: &mut W) -> io::Result<()>
        ensures written { output_state self.new (is_err result) ≡ emptied (output_state self.old false) (is_err result) }
        ensures kept { self.new.bytes ≡ self.old.bytes }
        ensures handed { Handed (W.contents writer.old) (W.contents writer.new) (take self.old.put self.old.bytes) (is_err result) }
    {
        let waits = &self.bytes[..self.put];
        let total = self.sent.wrapping_add(waits.len() as u64);
        let written = write_all(writer, waits);
        self.put = 0;
        self.sent = total;
        written
    }
}

// A digit below 16, in capitals.
// Kept: `char::from_digit` gives small letters, and an Option of a char.
fn digit(d: u32) -> u8
    requires small { d < 16 }
    ensures digit { result ≡ digit_of d }
{
    b"0123456789ABCDEF"[d as usize]
}

// Writes all of the bytes, or stops at the first write that fails or takes nothing.
// Kept: std's `write_all` says nothing of what was taken before an error, and tries again after an interruption.
pub fn write_all<W: Write>(to: &mut W, bytes: &[u8]) -> io::Result<()>
    ensures handed { Handed (W.contents to.old) (W.contents to.new) bytes.now (is_err result) }
{
    let mut done = 0;
    while done < bytes.len() {
        let n = to.write(&bytes[done..])?;
        if n == 0 {
            return Err(ErrorKind::WriteZero.into());
        }
        done += n;
    }
    Ok(())
}
