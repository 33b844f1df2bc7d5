// Answers the requests on standard input, and prints a line for each: the answer's words, or `no `
// and the number of the refusal.
#![tactic(auto)]

mod input;
mod output;
mod session;
mod stores;
mod word;

use session::Session;

// The bytes of the largest block that is read or written at once.
const BLOCK_BYTES: usize = 65536;

// The words of the buffer, and of the answer slice as long as it; the words of each store.
const BUFFER_WORDS: usize = 512;

const STORE_WORDS: usize = 16384;

// The exit status is 0 all the same, so that a failure shows on standard error alone. An input of
// 2^64 bytes, which cannot be counted, ends it so too.
fn main(rt: HostRuntime) {
    let mut session = Session::<BLOCK_BYTES, BUFFER_WORDS, STORE_WORDS>::new();
    if session.run(&mut rt.stdin(), &mut rt.stdout()).is_err() {
        let message = b"history: the output could not be written\n";
        let _ = output::write_all(&mut rt.stderr(), message);
    }
}
