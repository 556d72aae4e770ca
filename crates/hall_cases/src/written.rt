// Plans written from lists into buffers of every length around the needed one.
use crate::{lists, show};
use plan_length::{PlanLength, PlanWritten};
use std::io;

// A buffer with room for a byte more than any plan may have, and two past that.
fn buffer_room() -> [u8; 65539] {
    [238u8; 65539]
}

// What writing into the first `lent` bytes of a buffer answers, the checksum of the buffer with two bytes past them and, where a plan was written, that of
// reading it into lists.
fn write_into(
    rt: &impl Print,
    outer: u64,
    kinds: &[u8],
    values: &[u32],
    buffer: &mut [u8],
    lent: usize,
) -> io::Result<()> {
    if buffer.len() < lent {
        return Ok(());
    }
    let written = hall_write::write_halls(outer, kinds, values, &mut buffer[..lent]);
    let found = PlanWritten::from(written);
    let sum = testing::add_bytes(0, testing::first(buffer, lent.wrapping_add(2)));
    show::answer(rt, found.number, sum, found.place)?;
    if written.is_err() {
        return Ok(());
    }
    let read = lists::read(0, testing::first(buffer, lent), kinds.len(), values.len());
    show::field(rt, read)
}

fn write(rt: &impl Print, outer: u64, kinds: &[u8], values: &[u32], lent: usize) -> io::Result<()> {
    let mut buffer = buffer_room();
    write_into(rt, outer, kinds, values, &mut buffer, lent)
}

// This length, one byte less and one more; none; and the limit and one byte more.
fn lent_length(length: usize, k: u32) -> usize {
    match k {
        3 => 0,
        4 => 65536,
        5 => 65537,
        _ => lists::around(length, k),
    }
}

// How long the plan of these lists is, and what writing answers for buffers around that length, or around another where they have no plan.
fn write_each(
    rt: &impl Print,
    outer: u64,
    kinds: &[u8],
    values: &[u32],
    otherwise: usize,
) -> io::Result<()> {
    let needed = hall_length::hall_length(outer, kinds, values);
    let found = PlanLength::from(needed);
    show::answer(rt, found.number, found.length as u64, found.place)?;
    let length = needed.unwrap_or(otherwise);
    for k in 0..6 {
        write(rt, outer, kinds, values, lent_length(length, k))?;
    }
    Ok(())
}

// As in plan_cases, where the rows are fewer: the check needs the length of the array beside it.
fn fill(values: &mut [u32], bytes: &[u8]) {
    for (i, value) in values.iter_mut().enumerate() {
        *value = testing::word(testing::rest(bytes, (i % 33000) * 4));
    }
}

// The same for values of four bytes each.
pub fn written(
    rt: &impl Print,
    outer: u64,
    kinds: &[u8],
    bytes: &[u8],
    otherwise: usize,
) -> io::Result<()> {
    let mut values = lists::values_room();
    fill(&mut values, bytes);
    let count = bytes.len() / 4;
    if count > 33000 {
        return Ok(());
    }
    write_each(rt, outer, kinds, &values[..count], otherwise)
}

// The same for what a plan reads into lists of n entries.
pub fn again(rt: &impl Print, plan: &[u8], n: usize) -> io::Result<()> {
    let mut kinds = lists::kinds_room();
    let mut values = lists::values_room();
    match lists::read_into(plan, &mut kinds, &mut values, n, n) {
        Ok(found) if n <= 33000 => {
            write_each(rt, u64::from(found.outer), &kinds[..n], &values[..n], 0)
        }
        _ => Ok(()),
    }
}
