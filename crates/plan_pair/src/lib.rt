// Where a chute's row is, in a site plan and a house plan lent together (docs/RULES.md, 'Chute plan'): in the site plan if it has that chute, else in
// the house plan.
#![tactic(auto)]

ghost use Rattle.std.specs.Prelude.{◌≡◌, ◌≤◌, IfOk};
ghost use Rattle.plan_pair.specs.Pair.{
  pair_refusal_number,
  pair_refusal_plan,
  pair_refusal_place,
  smaller_refusal,
  located,
  location_from,
  location_of,
};

use answers::{PlanRefusal, Refusal};
use plan_read::Row;

// One of the two plans.
#[derive(Clone, Copy, Debug, PartialEq, Eq)]
pub enum Source {
    Site,
    House,
}

// Where the bytes of a row are: the plan that they are a part of, where they start in it and how many they are.
#[derive(Clone, Copy, Debug, PartialEq, Eq)]
pub struct RowLocation {
    pub source: Source,
    pub start: usize,
    pub length: usize,
}

// What a question on two plans is refused for. Of malformed plans the first is named, with the place in it.
#[derive(Clone, Copy, Debug, PartialEq, Eq)]
pub enum PairRefusal {
    TooLong,
    Malformed { plan: Source, place: usize },
    NoSuchChute,
}

impl PairRefusal {
    pub fn number(self) -> u8
        ensures { result ≡ pair_refusal_number self }
    {
        match self {
            PairRefusal::TooLong => Refusal::InputTooLong.number(),
            PairRefusal::Malformed { plan: _, place: _ } => Refusal::MalformedPlan.number(),
            PairRefusal::NoSuchChute => Refusal::NoSuchChute.number(),
        }
    }

    // The plan that is malformed.
    pub fn malformed(self) -> Option<Source>
        ensures { result ≡ pair_refusal_plan self }
    {
        match self {
            PairRefusal::Malformed { plan, place: _ } => Some(plan),
            PairRefusal::TooLong | PairRefusal::NoSuchChute => None,
        }
    }

    // The place at which it is.
    pub fn place(self) -> usize
        ensures { result ≡ pair_refusal_place self }
    {
        match self {
            PairRefusal::Malformed { plan: _, place } => place,
            PairRefusal::TooLong | PairRefusal::NoSuchChute => answers::NO_PLACE,
        }
    }

    // The smaller of the site plan's refusal and the house plan's. The site plan is read first, so that where both are malformed it is the one named.
    fn smaller(self, of_house: PairRefusal) -> PairRefusal
        ensures { result ≡ smaller_refusal self of_house }
    {
        match of_house {
            PairRefusal::TooLong => of_house,
            PairRefusal::Malformed { plan: _, place: _ } | PairRefusal::NoSuchChute => self,
        }
    }
}

// Where a row is that was read from one of the two plans, if that has it.
fn located(
    source: Source,
    read: Result<Row, PlanRefusal>,
) -> Result<Option<RowLocation>, PairRefusal>
    requires { IfOk read (λ row. row.start ≤ row.end) }
    ensures { result ≡ located source read }
{
    match read {
        Ok(row) => Ok(Some(RowLocation {
            source,
            start: row.start,
            length: row.end - row.start,
        })),
        Err(PlanRefusal::NoSuchChute) => Ok(None),
        Err(PlanRefusal::Malformed(malformed)) => Err(PairRefusal::Malformed {
            plan: source,
            place: malformed.place,
        }),
        Err(PlanRefusal::TooLong) => Err(PairRefusal::TooLong),
    }
}

// Where the row of a chute is. Both plans are read whole, and their refusals come before the chute's.
#[tactic(auto, using(crate::proofs::Locations::row_ordered))]
pub fn row_location(site: &[u8], house: &[u8], chute: u64) -> Result<RowLocation, PairRefusal>
    ensures { location_from result ≡ location_of site.now house.now chute }
{
    let in_site = located(Source::Site, plan::row_of(site, chute));
    let in_house = located(Source::House, plan::row_of(house, chute));
    match (in_site, in_house) {
        (Ok(in_site), Ok(in_house)) => in_site.or(in_house).ok_or(PairRefusal::NoSuchChute),
        (Err(of_site), Ok(_)) => Err(of_site),
        (Ok(_), Err(of_house)) => Err(of_house),
        (Err(of_site), Err(of_house)) => Err(of_site.smaller(of_house)),
    }
}
