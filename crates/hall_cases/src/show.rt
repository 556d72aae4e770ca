// How the answers are written, and how they are summed up.
use answers::PlanRefusal;
use hall::{HallCounts, HallSummary};
use std::io;

// A number and a blank.
pub fn field(rt: &impl Print, n: u64) -> io::Result<()> {
    print!(rt; "{n} ")
}

// A refusal, a value and a place, as the reference prints them of every answer, whatever its type.
pub fn answer(rt: &impl Print, number: u8, value: u64, place: usize) -> io::Result<()> {
    print!(rt; "{number}:{value}:{place} ")
}

// A refusal, what a hall plan has, and the place after how many entries.
pub fn summary(rt: &impl Print, read: Result<HallCounts, PlanRefusal>) -> io::Result<()> {
    let found = HallSummary::from(read);
    answer(rt, found.number, found.entries as u64, found.place)?;
    field(rt, u64::from(found.outer))?;
    field(rt, u64::from(found.chutes))
}

// The checksum taken on by a refusal, what a hall plan has, and the place.
pub fn add_summary(sum: u64, read: Result<HallCounts, PlanRefusal>) -> u64 {
    let found = HallSummary::from(read);
    let number = testing::add_number(sum, u64::from(found.number));
    let entries = testing::add_number(number, found.entries as u64);
    let outer = testing::add_number(entries, u64::from(found.outer));
    let chutes = testing::add_number(outer, u64::from(found.chutes));
    testing::add_number(chutes, found.place as u64)
}

// The checksum taken on by a refusal, a value and a place.
pub fn add_answer(sum: u64, number: u8, value: u32, place: usize) -> u64 {
    testing::add_number(
        testing::add_number(
            testing::add_number(sum, u64::from(number)),
            u64::from(value),
        ),
        place as u64,
    )
}
