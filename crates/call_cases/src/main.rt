// Cases of every entry for hashing, sessions, sealing and the generators, read from standard input. What stands there, and what must be written for it, is
// worked out by reference/call_cases.py.
//
// The input is three blocks, of calls that keep no state, of sessions and of the generators; the first two are filled up to the buffer's length. A block begins
// with how many cases it has, in a word of four bytes, lowest byte first. Then come the cases, and then the bytes of their strings. A case is a letter, a word
// and two strings, each as two words: where in the block it begins, and its length; one that keeps no state has two strings and a word more.
#![tactic(auto)]

mod case; // case.rt: the parts of a case, and what is written for every family
mod generators; // generators.rt: seeding and drawing
mod hashes; // hashes.rt: the three functions in one call
mod seals; // seals.rt: sealing and opening
mod sessions; // sessions.rt: starting, taking and giving
mod single; // single.rt: the calls that keep no state

use std::io;

// A block's buffer: what it holds is asked of none, so that the check need not know it.
fn buffer() -> [u8; 393216] {
    [0u8; 393216]
}

fn main(rt: HostRuntime) -> io::Result<()> {
    let mut input = rt.stdin();
    let mut block = buffer();
    let n = reading::read_full(&mut input, &mut block)?;
    without_state(&rt, testing::first(&block, n))?;
    let m = reading::read_full(&mut input, &mut block)?;
    of_sessions(&rt, testing::first(&block, m))?;
    let k = reading::read_full(&mut input, &mut block)?;
    of_generators(&rt, testing::first(&block, k))
}

// A line for each block, since each family's `run` keeps another state.
fn without_state(rt: &impl Print, block: &[u8]) -> io::Result<()> {
    single::run(rt, block, case::FROM, case::word(block, 0))
}

fn of_sessions(rt: &impl Print, block: &[u8]) -> io::Result<()> {
    sessions::run(rt, block, case::FROM, case::word(block, 0))
}

fn of_generators(rt: &impl Print, block: &[u8]) -> io::Result<()> {
    generators::run(rt, block, case::FROM, case::word(block, 0))
}
