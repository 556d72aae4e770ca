// The row of a chute in two plans and an ask of a walk as C has them (docs/RULES.md, 'Chute plan'): an offset, a length and the number of the plan, since no
// reference can be handed to C; and of the next cursor of a walk only where it stands, since the rest is that of the cursor before. The crate `hailfeather`
// gives the functions their names in C; the other questions on plans need no conversion.
#![tactic(auto)]

ghost use Rattle.std.specs.Prelude.{◌≡◌};
ghost use Rattle.plan_pair.specs.Pair.{location_from, location_of};
ghost use Rattle.plan_walk.specs.Walk.{walk_step};
ghost use Rattle.c_plan.specs.Row.{source_number, exported_location};
ghost use Rattle.c_plan.specs.Walk.{exported_answer};

use plan_pair::{PairRefusal, RowLocation, Source};
use plan_walk::{Cursor, WalkAnswer};

#[repr(C)]
#[derive(Clone, Copy)]
pub struct CRow {
    pub start: usize,
    pub length: usize,
    pub place: usize,
    // Two plans by their numbers: 0 is neither, 1 the site plan, 2 the house plan.
    pub source: u8,
    pub malformed: u8,
    pub number: u8,
}

// The number of a plan, as C has it.
fn source_number(source: Option<Source>) -> u8
    ensures { result ≡ source_number source }
{
    match source {
        None => 0,
        Some(Source::Site) => 1,
        Some(Source::House) => 2,
    }
}

impl From<Result<RowLocation, PairRefusal>> for CRow {
    ghost from_gives = { λ answer row. row ≡ exported_location (location_from answer) };

    fn from(answer: Result<RowLocation, PairRefusal>) -> CRow {
        match answer {
            Ok(location) => CRow {
                start: location.start,
                length: location.length,
                place: answers::NO_PLACE,
                source: source_number(Some(location.source)),
                malformed: source_number(None),
                number: answers::DONE,
            },
            Err(refusal) => CRow {
                start: 0,
                length: 0,
                place: refusal.place(),
                source: source_number(None),
                malformed: source_number(refusal.malformed()),
                number: refusal.number(),
            },
        }
    }
}

pub fn row(site: &[u8], house: &[u8], chute: u64) -> CRow
    ensures { result ≡ exported_location (location_of site.now house.now chute) }
{
    CRow::from(plan_pair::row_location(site, house, chute))
}

#[repr(C)]
#[derive(Clone, Copy)]
pub struct CWalk {
    pub next: usize,
    pub place: usize,
    pub destination: u32,
    pub number: u8,
}

impl From<WalkAnswer> for CWalk {
    ghost from_gives = { λ answer walk. walk ≡ exported_answer answer };

    fn from(answer: WalkAnswer) -> CWalk {
        CWalk {
            next: answer.next.at,
            place: answer.place,
            destination: answer.destination,
            number: answer.number,
        }
    }
}

pub fn step(plan: &[u8], cursor: Cursor) -> CWalk
    ensures { result ≡ exported_answer (walk_step plan.now cursor) }
{
    CWalk::from(plan_walk::step_at(plan, cursor))
}
