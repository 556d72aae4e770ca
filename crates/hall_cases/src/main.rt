// Cases of every hall entry, read from standard input (cases/src/lib.rt). What stands there, and what must be written for it, is worked out by
// reference/hall_cases.py. The words of a case are the lengths of its strings, a number of chutes or of entries, low and high, and a length.
#![tactic(auto)]

mod entries; // entries.rt: the entries' answers
mod lists; // lists.rt: plans read into lists
mod show; // show.rt: how answers are written
mod written; // written.rt: plans written from lists

use cases::Cases;
use std::io;

// A letter and five words.
const HEAD: usize = 21;

// The large arrays come from functions that promise nothing of them: what a check costs grows with the length of an array whose elements it knows.
fn room() -> [u8; 524288] {
    [0u8; 524288]
}

fn many_zeros() -> [u8; 132000] {
    [0u8; 132000]
}

// The cases one after another, with the checksum of those that are summed up.
fn main(rt: HostRuntime) -> io::Result<()> {
    let mut input = room();
    let n = reading::read_full(&mut rt.stdin(), &mut input)?;
    let zeros = many_zeros();
    let mut sum: u64 = 0;
    for case in Cases::<HEAD>::new(testing::first(&input, n), &zeros) {
        sum = entries::asked(&rt, case, sum)?;
    }
    Ok(())
}
