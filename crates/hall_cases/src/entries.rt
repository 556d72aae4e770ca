// The hall entries, each asked for one case.
use crate::{lists, show, written};
use cases::Case;
use plan::Lookup;
use std::io;

// The words where a case's number and its length stand.
const NUMBER: u8 = 2;

const LENGTH: u8 = 4;

// What the case's letter asks for, and the checksum after it.
pub fn asked(rt: &impl Print, case: Case, sum: u64) -> io::Result<u64> {
    let number = case.number(NUMBER);
    let length = case.word(LENGTH) as usize;
    // The letter stands in the input, so that a match tells what is asked; closures would be chosen by the same match.
    match case.letter {
        b's' => return Ok(summed(case.first, sum, number, length)),
        b'e' => show::field(rt, sum)?,
        b'w' => written::written(rt, number, case.first, case.second, length)?,
        b'l' => line(rt, case.first, length)?,
        _ => printing::print(rt, case.first)?,
    }
    println!(rt)?;
    Ok(0)
}

// What the plan has, the plan read into lists around the given length, and written again from what was read.
fn line(rt: &impl Print, plan: &[u8], entries: usize) -> io::Result<()> {
    show::summary(rt, hall::read_halls(plan))?;
    lists::read_each(rt, plan, entries)?;
    written::again(rt, plan, entries)
}

// What a plan has, what it reads into lists of this length, and the answers for the chutes below the given one, from a multiple of 2^32 on, taken into the
// checksum.
fn summed(plan: &[u8], sum: u64, chute: u64, length: usize) -> u64 {
    let read = show::add_summary(sum, hall::read_halls(plan));
    let mut all = lists::read(read, plan, length, length);
    for i in (chute >> 32) << 32..chute {
        let found = Lookup::from(hall::destination(plan, i));
        all = show::add_answer(all, found.number, found.destination, found.place);
    }
    all
}
