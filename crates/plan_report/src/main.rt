// The report program (docs/RULES.md, 'Chute plan'): reads a plan on standard input and writes the number of rows and each row, or the refusal
// with the place at which the plan is malformed.
#![tactic(auto)]

use answers::PlanRefusal;
use std::io;

// One byte more than a plan may have tells a plan that is too long, so no input is read further.
const READ: usize = plan_read::MAX_PLAN + 1;

// A function that promises nothing of the array: what a check costs grows with the length of an array whose elements it knows.
fn room() -> [u8; READ] {
    [0u8; READ]
}

fn main(rt: HostRuntime) -> io::Result<()> {
    let mut buffer = room();
    let n = reading::read_full(&mut rt.stdin(), &mut buffer)?;
    report(&rt, &buffer[..n])
}

// A refusal, and for a malformed plan the place.
fn refused(rt: &impl Print, refusal: PlanRefusal) -> io::Result<()> {
    let number = refusal.number();
    if let PlanRefusal::Malformed(malformed) = refusal {
        return println!(rt; "refused {number} at {}", malformed.place);
    }
    println!(rt; "refused {number}")
}

fn report(rt: &impl Print, plan: &[u8]) -> io::Result<()> {
    let rows = match plan::read_plan(plan) {
        Ok(rows) => rows,
        Err(refusal) => return refused(rt, refusal),
    };
    println!(rt; "rows {rows}")?;
    let mut cursor = plan_walk::start_at(plan);
    for chute in 1..=rows {
        let answer = plan_walk::step_at(plan, cursor);
        println!(rt; "{chute} {}", answer.destination)?;
        cursor = answer.next;
    }
    Ok(())
}
