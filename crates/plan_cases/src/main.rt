// Cases of every plan entry, read from standard input (cases/src/lib.rt). What stands there, and what must be written for it, is worked out by
// reference/plan_cases.py. The words of a case are the lengths of its strings, and a chute, low and high.
#![tactic(auto)]

mod entries; // entries.rt: the entries' answers

use cases::Cases;
use std::io;

// A letter and four words.
const HEAD: usize = 17;

// The large arrays come from functions that promise nothing of them: what a check costs grows with the length of an array whose elements it knows.
fn room() -> [u8; 262144] {
    [0u8; 262144]
}

fn many_zeros() -> [u8; 65600] {
    [0u8; 65600]
}

// The cases one after another, with the checksum of those that are summed up; hall_cases has the same lines over arrays of its own.
fn main(rt: HostRuntime) -> io::Result<()> {
    let mut input = room();
    let n = reading::read_full(&mut rt.stdin(), &mut input)?;
    let zeros = many_zeros();
    let mut sum: u64 = 0;
    for case in Cases::<HEAD>::new(testing::first(&input, n), &zeros) {
        sum = entries::asked(&rt, case, sum)?;
    }
    Ok(())
}
