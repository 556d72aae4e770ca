// A walk over a plan's rows (docs/RULES.md, 'Chute plan', the walker): where it starts, and an ask where it stands, with the plan lent to each.
#![tactic(auto)]

ghost use Rattle.std.specs.Prelude.{◌≡◌};
ghost use Rattle.plan_walk.specs.Walk.{first_row_at, stay, walk_start, walk_step};

use answers::PlanRefusal;

// Where a walk stands: at the next row of its plan; or at 0 with the plan's refusal and, with 9, the place at which the plan is malformed.
// As C has it, which may lend any number here.
#[repr(C)]
#[derive(Clone, Copy)]
pub struct Cursor {
    pub at: usize,
    pub place: usize,
    pub number: u8,
}

// The answer to an ask, and where the walk stands after it; with 9 the place at which the plan is malformed. A number, not a Result: C lends any cursor, whose
// number may be none of the refusal table, and the answer has it (`walk_step`).
#[derive(Clone, Copy)]
pub struct WalkAnswer {
    pub number: u8,
    pub destination: u32,
    pub next: Cursor,
    pub place: usize,
}

fn stays(number: u8, place: usize, cursor: Cursor) -> WalkAnswer
    ensures { result ≡ stay number place cursor }
{
    WalkAnswer {
        number,
        destination: 0,
        place,
        next: cursor,
    }
}

// The place after the number of rows, 0 where there is none. Filling the lists of a hall plan begins by the same line.
fn first_row(plan: &[u8]) -> usize
    ensures { result ≡ first_row_at plan.now }
{
    leb128::number_at(plan, 0).map_or(0, |rows| rows.next)
}

// Where a walk starts: the plan is read whole, and the first row stands after the number of rows.
#[tactic(auto, using(crate::proofs::Walking::start_refused))]
pub fn start_at(plan: &[u8]) -> Cursor
    ensures { result ≡ walk_start plan.now }
{
    match plan::read_plan(plan) {
        Ok(_) => Cursor {
            at: first_row(plan),
            number: answers::DONE,
            place: answers::NO_PLACE,
        },
        Err(refusal) => Cursor {
            at: 0,
            number: refusal.number(),
            place: refusal.place(),
        },
    }
}

// An ask of a walk over a plan.
#[tactic(auto, using(crate::proofs::Walking::step_refused, crate::proofs::Walking::step_row, crate::proofs::Walking::step_none))]
pub fn step_at(plan: &[u8], cursor: Cursor) -> WalkAnswer
    ensures { result ≡ walk_step plan.now cursor }
{
    if cursor.number != answers::DONE {
        return stays(cursor.number, cursor.place, cursor);
    }
    let Ok(row) = plan_read::row_at(plan, cursor.at) else {
        return stays(PlanRefusal::NoSuchChute.number(), answers::NO_PLACE, cursor);
    };
    WalkAnswer {
        number: answers::DONE,
        destination: row.destination,
        place: answers::NO_PLACE,
        next: Cursor {
            at: row.end,
            number: answers::DONE,
            place: cursor.place,
        },
    }
}
