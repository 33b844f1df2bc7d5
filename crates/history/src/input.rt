// The input: what is read and not yet used, and the request that it starts with.
ghost use Rattle.std.specs.Prelude.{◌≡◌, suc, ◌+◌, ◌-◌, ◌^◌, ◌<◌, ◌≤◌, ◌↔◌, ◌++◌, length, take, drop, IsTrue, IfSome, IfNone};
ghost use Rattle.std.specs.Io.KnownBytes.{Consumes};
ghost use Rattle.request.specs.Table.{longest_count};
ghost use Rattle.history.specs.Input.{words_in, request_in, decided};
ghost use Rattle.history.specs.State.{longest_request};

use super::word;
use request::table::LONGEST_COUNT;
use std::io::Read;
use types::response;

// The words of the longest request.
const LONGEST: usize = LONGEST_COUNT + 1;

// A block of the input, and how much of it was read.
#[derive(Drop)]
pub struct Input<const N: usize> {
    pub bytes: [u8; N],
    // Bytes that are read and not yet used: from `at` to `end`.
    pub at: usize,
    pub end: usize,
    // Bytes that were read.
    pub got: u64,
    // No more input comes.
    // Kept: a flag, beside no value: the bytes that are unread are there before and after.
    pub over: bool,
    ghost from: { at ≤ end },
    ghost to: { end ≤ length bytes },
    ghost room: { longest_request ≤ N },
}

impl<const N: usize> Input<N> {
    ghost use Rattle.history.specs.State.{start, unread, wants_more, ReadOn};
    ghost use Rattle.history.specs.Reading.{input_state, Uses};

    pub fn new() -> Self
        requires room { longest_request ≤ N }
        ensures start { input_state result ≡ start }
    {
        Input {
            bytes: [0; N],
            at: 0,
            end: 0,
            got: 0,
            over: false,
        }
    }

    pub fn unread(&self) -> &[u8]
        ensures unread { result.now ≡ unread (input_state self.now) self.now.bytes }
    {
        let bytes = &self.bytes[..];
        &bytes[self.at..self.end]
    }

    // Whether more has to be read before the next answer.
    pub fn wants_more(&self) -> bool
        ensures wants { result ≡ wants_more (input_state self.now) self.now.bytes }
    {
        !self.over && !decided(self.unread())
    }

    // Whether `got` can count what the next read brings.
    pub fn can_count(&self) -> bool
        ensures can { IsTrue result ↔ (self.now.got + N < 2 ^ 64) }
    {
        N as u64 <= u64::MAX - self.got
    }

    // Reads on after the unread bytes, which are moved to the start.
    pub fn read_on<R: Read>(&mut self, reader: &mut R)
        requires room { self.old.end - self.old.at < N }
        requires counts { self.old.got + N < 2 ^ 64 }
        ensures size { length self.new.bytes ≡ N }
        ensures reads { ReadOn (input_state self.old) self.old.bytes (input_state self.new) self.new.bytes }
        ensures gave { Consumes (R.remaining reader.old) (R.remaining reader.new) (drop (self.old.end - self.old.at) (unread (input_state self.new) self.new.bytes)) }
    {
        let (at, end) = (self.at, self.end);
        let left = end - at;
        let bytes = &mut self.bytes[..];
        bytes.copy_within(at..end, 0);
        let n = read_some(reader, &mut bytes[left..]);
        self.at = 0;
        self.end = left + n;
        self.got += n as u64;
        self.over = n == 0;
    }

    // The next `n` bytes are used.
    pub fn skip(&mut self, n: usize)
        requires few { n ≤ self.old.end - self.old.at }
        ensures uses { Uses self.old self.new n }
    {
        self.at += n;
    }
}

// One read, for a byte or more: it waits for no more than there are. An error counts as the end.
fn read_some<R: Read>(reader: &mut R, room: &mut [u8]) -> usize
    requires room { 0 < length room.old }
    ensures count { result ≤ length room.new }
    ensures gave { Consumes (R.remaining reader.old) (R.remaining reader.new) (take result room.new) }
{
    reader.read(room).unwrap_or(0)
}

// How many words the request has that the bytes start with, if its head is there.
fn words_in(b: &[u8]) -> Option<usize>
    ensures words { IfSome result (λ n. (4 ≤ length b.now) × (n ≡ words_in b.now)) }
    ensures cut { IfNone result (length b.now < 4) }
{
    if b.len() < 4 {
        return None;
    }
    Some(response::count_in(word::word_at(b, 0)) + 1)
}

// Puts the words of the request that the bytes start with at the front, and answers how many they
// are: none if the head counts too many words or the end is cut.
// Kept: no words are a request too, which every call refuses by 2; an Option would be turned back into 0.
pub fn next(b: &[u8], words: &mut [u32]) -> usize
    requires room { suc longest_count ≤ length words.old }
    ensures request { words.new ≡ request_in b.now ++ drop (length (request_in b.now)) words.old }
    ensures count { result ≡ length (request_in b.now) }
{
    match words_in(b) {
        Some(n) if n <= LONGEST && 4 * n <= b.len() => {
            word::load(b, words, n);
            n
        }
        _ => 0,
    }
}

// Whether the bytes decide the request that they start with, whatever follows them.
pub fn decided(b: &[u8]) -> bool
    ensures decided { result ≡ decided b.now }
{
    match words_in(b) {
        Some(n) => n > LONGEST || 4 * n <= b.len(),
        None => false,
    }
}
