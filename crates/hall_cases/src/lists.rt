// Plans read into lent lists of every length around the needed one.
use crate::show;
use answers::PlanRefusal;
use hall::HallCounts;
use std::io;

// Lists with room for every plan, whose elements are nothing that a plan has.
pub fn kinds_room() -> [u8; 33000] {
    [238u8; 33000]
}

pub fn values_room() -> [u32; 33000] {
    [4008636142u32; 33000]
}

fn value_at(values: &[u32], i: usize) -> u32 {
    if i < values.len() {
        return values[i];
    }
    0
}

// The checksum taken on by the first n values.
fn add_values(sum: u64, values: &[u32], n: usize) -> u64 {
    let mut all = sum;
    for i in 0..n {
        all = testing::add_number(all, u64::from(value_at(values, i)));
    }
    all
}

// Reads a plan into the first n kinds and the first m values, of which there are so many.
pub fn read_into(
    plan: &[u8],
    kinds: &mut [u8],
    values: &mut [u32],
    n: usize,
    m: usize,
) -> Result<HallCounts, PlanRefusal> {
    if n <= kinds.len() {
        if m <= values.len() {
            return hall_lists::read_into(plan, &mut kinds[..n], &mut values[..m]);
        }
    }
    hall::read_halls(plan)
}

// The checksum taken on by what reading into lists of these lengths answers, and by both lists with two elements past their end.
pub fn read(sum: u64, plan: &[u8], n: usize, m: usize) -> u64 {
    let mut kinds = kinds_room();
    let mut values = values_room();
    let answered = show::add_summary(sum, read_into(plan, &mut kinds, &mut values, n, m));
    let listed = testing::add_bytes(answered, testing::first(&kinds, n.wrapping_add(2)));
    add_values(listed, &values, m.wrapping_add(2))
}

// One less than n, n itself, or one more.
pub fn around(n: usize, k: u32) -> usize {
    if k == 1 {
        return n;
    }
    if k == 2 {
        return n.wrapping_add(1);
    }
    n.saturating_sub(1)
}

// All mixes of lists as long as they should be, shorter by one and longer by one.
pub fn read_each(rt: &impl Print, plan: &[u8], n: usize) -> io::Result<()> {
    for k in 0..9 {
        show::field(rt, read(0, plan, around(n, k / 3), around(n, k % 3)))?;
    }
    Ok(())
}
