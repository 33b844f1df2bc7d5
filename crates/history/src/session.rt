// A run over one input: its turns, in each of which what waits is written, or more is read, or a
// request is answered and its line put.
ghost use Rattle.std.specs.Prelude.{suc, ◌≤◌};
ghost use Rattle.types.specs.Response.{answer_width};
ghost use Rattle.request.specs.Table.{longest_count};

use super::input;
use super::input::Input;
use super::output::{LINE, Output};
use super::stores::Stores;
use std::io;
use std::io::{ErrorKind, Read, Write};

#[derive(Drop)]
pub struct Session<const BLOCK: usize, const WORDS: usize, const STORE: usize> {
    pub input: Input<BLOCK>,
    pub output: Output<BLOCK>,
    // The request that is called with, and the slice for its answer.
    pub words: [u32; WORDS],
    pub answer: [u32; WORDS],
    pub stores: Stores<STORE>,
    // No more lines come.
    // Kept: a flag, beside no value: a session that has stopped holds all that one that goes on does, and still writes what waits.
    pub stopped: bool,
    ghost request_fits: { suc longest_count ≤ WORDS },
    ghost answer_fits: { answer_width ≤ WORDS },
}

impl<const BLOCK: usize, const WORDS: usize, const STORE: usize> Session<BLOCK, WORDS, STORE> {
    ghost use Rattle.std.specs.Prelude.{◌≡◌, ◌+◌, ◌-◌, ◌^◌, ◌<◌, true, false, length, drop, replicate, is_err};
    ghost use Rattle.std.specs.Io.KnownBytes.{Consumes};
    ghost use Rattle.history.specs.State.{longest_request, longest_line, unread, ReadOn, budget, start};
    ghost use Rattle.history.specs.Turn.{Answered, Turned};
    ghost use Rattle.history.specs.Ran.{Ran};
    ghost use Rattle.history.specs.Moved.{TurnedBy, RanBy};
    ghost use Rattle.history.specs.Session.{state_of, view_in};
    ghost use Rattle.mvhashmap.specs.Call.{lent, view_of};

    pub fn new() -> Self
        requires block { longest_request ≤ BLOCK }
        requires line { longest_line ≤ BLOCK }
        requires request { suc longest_count ≤ WORDS }
        requires answer { answer_width ≤ WORDS }
        ensures start { state_of result false ≡ start }
        ensures cleared { view_in result ≡ view_of (lent (replicate STORE 0) (replicate STORE 0) (replicate WORDS 0)) }
    {
        Session {
            input: Input::new(),
            output: Output::new(),
            words: [0; WORDS],
            answer: [0; WORDS],
            stores: Stores::new(),
            stopped: false,
        }
    }

    // Calls with the next request, and puts the line of what the call shows.
    fn answer_next(&mut self)
        requires room { self.old.output.put + longest_line ≤ BLOCK }
        ensures bytes { self.new.input.bytes ≡ self.old.input.bytes }
        ensures answered { Answered (state_of self.old false) (unread (state_of self.old false) self.old.input.bytes) (view_in self.old) self.old.output.bytes (state_of self.new false) (view_in self.new) self.new.output.bytes }
    {
        let unread = self.input.unread();
        if unread.is_empty() {
            self.stopped = true;
            return;
        }
        let n = input::next(unread, &mut self.words);
        let called = self.stores.call(&self.words[..n], &mut self.answer);
        self.output.put_line(called, &self.answer);
        self.input.skip(4 * n);
        self.stopped = n == 0;
    }

    // Reads on. It may wait, so nothing else does.
    fn read_on<R: Read>(&mut self, reader: &mut R)
        requires written { self.old.output.put ≡ 0 }
        requires room { self.old.input.end - self.old.input.at < BLOCK }
        requires counts { self.old.input.got + BLOCK < 2 ^ 64 }
        ensures size { length self.new.input.bytes ≡ BLOCK }
        ensures kept { self.new.output.bytes ≡ self.old.output.bytes }
        ensures view { view_in self.new ≡ view_in self.old }
        ensures reads { ReadOn (state_of self.old false) self.old.input.bytes (state_of self.new false) self.new.input.bytes }
        ensures gave { Consumes (R.remaining reader.old) (R.remaining reader.new) (drop (self.old.input.end - self.old.input.at) (unread (state_of self.new false) self.new.input.bytes)) }
    {
        self.input.read_on(reader);
    }

    // A line is written before the program waits for more input.
    fn turn<R: Read, W: Write>(&mut self, reader: &mut R, writer: &mut W) -> io::Result<()>
        requires goes_on { self.old.stopped ≡ true → 0 < self.old.output.put }
        ensures less { budget (state_of self.new (is_err result)) < budget (state_of self.old false) }
        ensures turned { Turned (state_of self.old false) self.old.input.bytes (view_in self.old) self.old.output.bytes (state_of self.new (is_err result)) self.new.input.bytes (view_in self.new) self.new.output.bytes }
        ensures moved { TurnedBy (R.remaining reader.old) (R.remaining reader.new) (W.contents writer.old) (W.contents writer.new) (state_of self.old false) self.old.input.bytes (view_in self.old) self.old.output.bytes (state_of self.new (is_err result)) self.new.input.bytes (view_in self.new) self.new.output.bytes }
    {
        if self.stopped || self.output.room() < LINE {
            return self.output.write_waiting(writer);
        }
        if !self.input.wants_more() {
            self.answer_next();
            return Ok(());
        }
        if self.output.waiting() > 0 {
            return self.output.write_waiting(writer);
        }
        if !self.input.can_count() {
            return Err(ErrorKind::FileTooLarge.into());
        }
        self.read_on(reader);
        Ok(())
    }

    // Makes turns until there is no more to answer and nothing waits, or a write fails.
    pub fn run<R: Read, W: Write>(&mut self, reader: &mut R, writer: &mut W) -> io::Result<()>
        requires start { state_of self.old false ≡ start }
        ensures ran { Ran (view_in self.old) (state_of self.new (is_err result)) (view_in self.new) }
        ensures moved { RanBy (R.remaining reader.old) (R.remaining reader.new) (W.contents writer.old) (W.contents writer.new) (view_in self.old) (state_of self.new (is_err result)) (view_in self.new) }
    {
        // Kept: it counts nothing: each turn decides what is left to do.
        while !self.stopped || self.output.waiting() > 0 {
            self.turn(reader, writer)?;
        }
        Ok(())
    }
}
