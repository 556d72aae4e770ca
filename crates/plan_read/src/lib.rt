// Reading a chute plan (docs/RULES.md, 'Chute plan'): its limits, the row reader, and a plan read whole in one pass.
#![tactic(auto)]

ghost use Rattle.std.specs.Prelude.{◌≡◌, drop};
ghost use Rattle.plan_read.specs.Plan.{plan_number, rows_from, plan_of, plan_answer};
ghost use Rattle.plan_read.specs.Answers.{ReadsRow, ReadsPlan};

use answers::{Malformed, PlanRefusal};

// The limits, as specs/Limits.antt has them.
pub const MAX_PLAN: usize = 65536;

pub const MAX_ROWS: u32 = 4096;

pub const MAX_DESTINATION: u32 = leb128::MAX_NUMBER;

// A row: its destination, and where its bytes start and end in the plan.
#[derive(Clone, Copy, Debug, PartialEq, Eq)]
pub struct Row {
    pub destination: u32,
    pub start: usize,
    pub end: usize,
}

// The row reader: the row at a place of a plan.
pub fn row_at(plan: &[u8], at: usize) -> Result<Row, Malformed>
    ensures { ReadsRow at (plan_number at (drop at plan.now)) result }
{
    let number = leb128::number_at(plan, at)?;
    Ok(Row {
        destination: number.value,
        start: at,
        end: number.next,
    })
}

// What a plan read whole has: the number of rows, and the row of one chute where there is such a chute.
#[derive(Clone, Copy, Debug, PartialEq, Eq)]
pub struct PlanRead {
    pub count: u32,
    pub row: Option<Row>,
}

// Reads the rows from a place on, `count` of them and then nothing more. The first bad row ends the reading. Of the chute's row the loop keeps only where it
// starts, and the row is read again from there at the end: so no destination is put together in the loop, which reads every row for its end alone.
fn read_rows(plan: &[u8], first: usize, count: u32, chute: u64) -> Result<PlanRead, PlanRefusal>
    ensures { result ≡ plan_answer chute (rows_from count first (drop first plan.now)) }
{
    let mut kept = plan.len(); // where the chute's row starts; until it is met, the plan's end, where no row stands
    let mut at = first;
    for i in 0..count {
        let read = row_at(plan, at);
        let Ok(row) = read else {
            return Err(PlanRefusal::from(read.unwrap_err())); // anything but a row ends the reading
        };
        if u64::from(i) + 1 == chute {
            kept = at; // chutes count from 1
        }
        at = row.end;
    }
    if at < plan.len() {
        return Err(PlanRefusal::Malformed(Malformed { place: at })); // the first byte after the last row
    }
    Ok(PlanRead {
        count,
        row: row_at(plan, kept).ok(),
    })
}

// Reads a plan whole, in one pass, and keeps the row of one chute.
pub fn read_whole(plan: &[u8], chute: u64) -> Result<PlanRead, PlanRefusal>
    ensures { ReadsPlan chute (plan_of plan.now) result }
{
    if MAX_PLAN < plan.len() {
        return Err(PlanRefusal::TooLong);
    }
    let rows = leb128::number_at(plan, 0)?;
    if MAX_ROWS < rows.value {
        return Err(PlanRefusal::Malformed(Malformed { place: 0 })); // the place of a plan with too many rows
    }
    read_rows(plan, rows.next, rows.value, chute)
}
