// The plan entries, each asked for one case.
use answers::PlanRefusal;
use cases::Case;
use plan::{Lookup, PlanSummary};
use plan_length::{PlanLength, PlanWritten};
use std::io;

mod pairs; // pairs.rt: the entries on two plans

// The word where a case's chute stands.
const CHUTE: u8 = 2;

// What the case's letter asks for, and the checksum after it.
pub fn asked(rt: &impl Print, case: Case, sum: u64) -> io::Result<u64> {
    let chute = case.number(CHUTE);
    // The letter stands in the input, so that a match tells what is asked; closures would be chosen by the same match.
    match case.letter {
        b's' => return Ok(summed(case.first, sum, chute)),
        b'e' => field(rt, sum)?,
        b'p' => pairs::row(rt, case.first, case.second, chute)?,
        b'h' => printing::print(rt, case.first)?,
        b'l' => line(rt, case.first, chute)?,
        b'w' => written(rt, case.first)?,
        b'm' => migrated(rt, case.first)?,
        _ => walked(rt, case.first)?,
    }
    println!(rt)?;
    Ok(0)
}

// A number and a blank.
fn field(rt: &impl Print, n: u64) -> io::Result<()> {
    print!(rt; "{n} ")
}

// A refusal, a value and a place of an answer as C has it, as the reference prints them of every answer, whatever its type.
fn fields(rt: &impl Print, number: u8, value: u64, place: usize) -> io::Result<()> {
    print!(rt; "{number}:{value}:{place} ")
}

fn look_up(rt: &impl Print, plan: &[u8], chute: u64) -> io::Result<()> {
    let found = Lookup::from(plan::destination(plan, chute));
    fields(rt, found.number, u64::from(found.destination), found.place)
}

// The refusal, the number of rows and the place, then the answers for chute 0, the first, the one that the case names and the next, the row limit, and the
// numbers around 2^32.
fn line(rt: &impl Print, plan: &[u8], last: u64) -> io::Result<()> {
    let summary = PlanSummary::from(plan::read_plan(plan));
    fields(rt, summary.number, u64::from(summary.rows), summary.place)?;
    for chute in [
        0,
        1,
        last,
        last.wrapping_add(1),
        4096,
        4294967295,
        4294967297,
    ] {
        look_up(rt, plan, chute)?;
    }
    Ok(())
}

fn added(sum: u64, number: u8, value: u32, place: usize) -> u64 {
    let with_number = testing::add_number(sum, u64::from(number));
    let with_value = testing::add_number(with_number, u64::from(value));
    testing::add_number(with_value, place as u64)
}

// A plan's refusal, number of rows and place, and the answers for its first chutes from 0 on, taken into the checksum.
fn summed(plan: &[u8], sum: u64, chutes: u64) -> u64 {
    let summary = PlanSummary::from(plan::read_plan(plan));
    let mut all = added(sum, summary.number, summary.rows, summary.place);
    for chute in 0..chutes {
        let found = Lookup::from(plan::destination(plan, chute));
        all = added(all, found.number, found.destination, found.place);
    }
    all
}

// Rows of four bytes each: the length they take, and then the refusal and all of the buffer for that length, one byte more, one less, and none.
fn written(rt: &impl Print, bytes: &[u8]) -> io::Result<()> {
    let mut rows = [0u32; 4097];
    fill(&mut rows, bytes);
    let count = bytes.len() / 4;
    if count > 4097 {
        return Ok(());
    }
    write_each(rt, &rows[..count])
}

// As in hall_cases, where the values are more: the check needs the length of the array beside it.
fn fill(rows: &mut [u32], bytes: &[u8]) {
    for (i, row) in rows.iter_mut().enumerate() {
        *row = testing::word(testing::rest(bytes, (i % 4097) * 4));
    }
}

fn write_each(rt: &impl Print, rows: &[u32]) -> io::Result<()> {
    let needed = PlanLength::from(plan_length::plan_length(rows));
    let length = needed.length;
    fields(rt, needed.number, length as u64, needed.place)?;
    for lent in [length, length.wrapping_add(1), length.saturating_sub(1), 0] {
        into_lent(rt, lent, |out| plan_write::write_plan(rows, out))?;
    }
    Ok(())
}

// Writes into the first bytes of a buffer, if it has as many: the refusal, and all of the buffer.
fn into_lent<Write: Fn(&mut [u8]) -> Result<(), PlanRefusal>>(
    rt: &impl Print,
    lent: usize,
    write: Write,
) -> io::Result<()>
    requires { Write.IsAlwaysCallable write }
{
    let mut buffer = [238u8; 12300];
    into_first(rt, &mut buffer, lent, write)
}

fn into_first<Write: Fn(&mut [u8]) -> Result<(), PlanRefusal>>(
    rt: &impl Print,
    buffer: &mut [u8],
    lent: usize,
    write: Write,
) -> io::Result<()>
    requires { Write.IsAlwaysCallable write }
{
    if buffer.len() < lent {
        return Ok(());
    }
    let found = PlanWritten::from(write(&mut buffer[..lent]));
    fields(rt, found.number, testing::add_bytes(0, buffer), found.place)
}

// The length of the migrated plan, and then the refusal and all of the buffer for that length, one byte more, one less, and the plan's own length.
fn migrated(rt: &impl Print, plan: &[u8]) -> io::Result<()> {
    let needed = PlanLength::from(plan_migration::migrated_length(plan));
    let length = needed.length;
    fields(rt, needed.number, length as u64, needed.place)?;
    for lent in [
        length,
        length.wrapping_add(1),
        length.saturating_sub(1),
        plan.len(),
    ] {
        into_lent(rt, lent, |out| plan_migration::migrate(plan, out))?;
    }
    Ok(())
}

// Twelve asks of a walk: where it stands, and each refusal, destination and place.
fn walked(rt: &impl Print, plan: &[u8]) -> io::Result<()> {
    let mut cursor = plan_walk::start_at(plan);
    for _ in 0..12 {
        field(rt, cursor.at as u64)?;
        let step = plan_walk::step_at(plan, cursor);
        fields(rt, step.number, u64::from(step.destination), step.place)?;
        let next = step.next;
        cursor = next;
    }
    Ok(())
}
