// The questions on one chute plan (docs/RULES.md, 'Chute plan'): the number of its rows, the row of a chute, and the destination of a chute.
#![tactic(auto)]

ghost use Rattle.std.specs.Prelude.{◌≡◌};
ghost use Rattle.plan.specs.Answers.{
  summary_from,
  summary_of,
  has_chute,
  chute_row_from,
  chute_row_of,
  lookup_from,
  lookup_of,
};

use answers::PlanRefusal;
use plan_read::Row;

// The number of a plan's rows.
#[tactic(auto, using(crate::proofs::Asked::summary_refused, crate::proofs::Asked::summary_counted))]
pub fn read_plan(plan: &[u8]) -> Result<u32, PlanRefusal>
    ensures { summary_from result ≡ summary_of plan.now }
{
    Ok(plan_read::read_whole(plan, 0)?.count)
}

// Whether a plan of `count` rows has a chute: chutes count from 1.
pub fn has_chute(count: u32, chute: u64) -> bool
    ensures { result ≡ has_chute count chute }
{
    (1..=u64::from(count)).contains(&chute)
}

// The row of one chute.
#[tactic(auto, using(crate::proofs::Asked::row_refused, crate::proofs::Asked::row_found_lem))]
pub fn row_of(plan: &[u8], chute: u64) -> Result<Row, PlanRefusal>
    ensures { chute_row_from result ≡ chute_row_of plan.now chute }
{
    plan_read::read_whole(plan, chute)?
        .row
        .ok_or(PlanRefusal::NoSuchChute)
}

// The destination of one chute.
#[tactic(auto, unfolding(crate::specs::Answers::lookup_of))]
pub fn destination(plan: &[u8], chute: u64) -> Result<u32, PlanRefusal>
    ensures { lookup_from result ≡ lookup_of plan.now chute }
{
    Ok(row_of(plan, chute)?.destination)
}

// The answer of reading a plan, as C has it: 0 and the number of rows, or the refusal's number and, with 9, the place at which the plan is malformed.
#[repr(C)]
#[derive(Clone, Copy)]
pub struct PlanSummary {
    pub place: usize,
    pub rows: u32,
    pub number: u8,
}

impl From<Result<u32, PlanRefusal>> for PlanSummary {
    ghost from_gives = { λ answer summary. summary ≡ summary_from answer };

    fn from(answer: Result<u32, PlanRefusal>) -> PlanSummary {
        match answer {
            Ok(rows) => PlanSummary {
                number: answers::DONE,
                rows,
                place: answers::NO_PLACE, // the plan is well-formed
            },
            Err(refusal) => PlanSummary {
                number: refusal.number(),
                rows: 0,
                place: refusal.place(),
            },
        }
    }
}

// The answer for one chute, as C has it: 0 and the destination, or the refusal's number and, with 9, the place at which the plan is malformed.
#[repr(C)]
#[derive(Clone, Copy)]
pub struct Lookup {
    pub place: usize,
    pub destination: u32,
    pub number: u8,
}

impl From<Result<u32, PlanRefusal>> for Lookup {
    ghost from_gives = { λ answer lookup. lookup ≡ lookup_from answer };

    fn from(answer: Result<u32, PlanRefusal>) -> Lookup {
        match answer {
            Ok(destination) => Lookup {
                number: answers::DONE,
                destination,
                place: answers::NO_PLACE, // the chute has a row
            },
            Err(refusal) => Lookup {
                number: refusal.number(),
                destination: 0,
                place: refusal.place(),
            },
        }
    }
}
