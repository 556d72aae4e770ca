// The parts of a case, and what is written for it: a line, or the checksum taken on.
use std::io;

// Where a block's cases begin.
pub const FROM: usize = 4;

// A letter, a word and two strings of two words.
pub const SHORT: usize = 21;

// Two strings and a word more.
pub const LONG: usize = 41;

// Where the strings and the second word stand.
pub const FIRST: usize = 5;

pub const SECOND: usize = 13;

pub const THIRD: usize = 21;

pub const FOURTH: usize = 29;

const TAG: usize = 37;

// The word at a place.
pub fn word(bytes: &[u8], at: usize) -> usize {
    testing::word(testing::rest(bytes, at)) as usize
}

// The length of the lent output.
pub fn output(case: &[u8]) -> usize {
    word(case, 1)
}

// The second word: the length of a lent tag.
pub fn tag(case: &[u8]) -> usize {
    word(case, TAG)
}

// The string that two words of a case name.
pub fn string<'a>(input: &'a [u8], case: &[u8], at: usize) -> &'a [u8] {
    let words = testing::rest(case, at);
    testing::first(testing::rest(input, word(words, 0)), word(words, 4))
}

// Its length.
pub fn length(case: &[u8], at: usize) -> usize {
    word(testing::rest(case, at), 4)
}

// The case after one of this size, be it past the input's end, where a case is empty: so the places are counted, and no iterator over the input gives them.
pub fn next(from: usize, size: usize) -> usize {
    from.wrapping_add(size)
}

// A heading, or the checksum that is then begun anew; the checksum after it.
pub fn line(rt: &impl Print, letter: u8, text: &[u8], sum: u64) -> io::Result<u64> {
    if letter == b'h' {
        printing::print(rt, text)?;
    } else {
        printing::print_number(rt, sum)?;
    }
    println!(rt)?;
    Ok(0)
}

// The checksum taken on by the number and the runs of an answer.
pub fn numbered(sum: u64, number: u8, runs: usize) -> u64 {
    testing::add_number(testing::add_number(sum, u64::from(number)), runs as u64)
}

// Number, runs and bytes, on a line.
pub fn print(rt: &impl Print, number: u8, runs: usize, bytes: &[u8]) -> io::Result<()> {
    print!(rt; "{number} {runs} ")?;
    printing::print_bytes(rt, bytes)
}
