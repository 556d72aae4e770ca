// Writing a hall plan (docs/RULES.md, 'Hall plan'): an outermost number and two lists written into a lent buffer that they fill exactly.
#![tactic(auto)]

use answers::PlanRefusal;

mod put; // put.rt: the stores, once it is known that there is room

ghost use Rattle.plan_length.specs.Length.{written_from};
ghost use Rattle.hall_write.specs.Write.{WritesHalls};

// Writes the hall plan of an outermost number and two lists into a buffer that they fill exactly; a refusal has number 5 or 9, and nothing is written.
pub fn write_halls(
    outer: u64,
    kinds: &[u8],
    values: &[u32],
    out: &mut [u8],
) -> Result<(), PlanRefusal>
    ensures { WritesHalls outer kinds.now values.now out.old out.new (written_from result) }
{
    if plan_read::MAX_PLAN < out.len() {
        return Err(PlanRefusal::TooLong);
    }
    let Ok(needed) = hall_length::hall_length(outer, kinds, values) else {
        return Err(plan_length::NOT_WRITTEN); // the plan would be longer than a buffer may be, where the lists have one
    };
    if needed != out.len() {
        return Err(plan_length::NOT_WRITTEN);
    }
    let first = leb128_write::write_number(out, 0, outer as u32).unwrap();
    put::put_entries(kinds, values, out, first);
    Ok(())
}
