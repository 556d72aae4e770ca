// Reading a hall plan into two lent lists (docs/RULES.md, 'Hall plan'): each entry's kind, and its destination or its hall's number of entries.
#![tactic(auto)]

mod fill; // fill.rt: the stores, once the plan is known to be good and the lists to have its length

ghost use Rattle.std.specs.Prelude.{◌≡◌, drop};
ghost use Rattle.plan_read.specs.Plan.{plan_number};
ghost use Rattle.hall.specs.Answers.{summary_from};
ghost use Rattle.hall_lists.specs.Lists.{FillsLists};
ghost use Rattle.hall_lists.specs.Sequence.{entries_start};

use answers::{Malformed, PlanRefusal};
use hall::HallCounts;

// What lists of another length than the plan has entries are refused for: the place is that of no breach, as the plan has none.
const OTHER_LENGTH: PlanRefusal = PlanRefusal::Malformed(Malformed {
    place: answers::NO_PLACE,
});

// Where the entries start: past the outermost number.
fn entries_start(plan: &[u8]) -> usize
    ensures { result ≡ entries_start (plan_number 0 (drop 0 plan.now)) }
{
    leb128::number_at(plan, 0).map_or(0, |outer| outer.next)
}

// Reads a hall plan into two lists of exactly as many elements as it has entries, and answers as for reading it. On a refusal, 9 for lists of another length
// among them, nothing is written: so the plan is read whole before the first store.
pub fn read_into(
    plan: &[u8],
    kinds: &mut [u8],
    values: &mut [u32],
) -> Result<HallCounts, PlanRefusal>
    ensures { FillsLists plan.now kinds.old values.old kinds.new values.new (summary_from result) }
{
    let counts = hall::read_halls(plan)?;
    if kinds.len() != counts.entries {
        return Err(OTHER_LENGTH); // not the plan, but the kinds
    }
    if values.len() != counts.entries {
        return Err(OTHER_LENGTH); // not the plan, but the values
    }
    fill::fill_lists(plan, entries_start(plan), kinds, values);
    Ok(counts)
}
