// The length of a hall plan (docs/RULES.md, 'Hall plan'): how many bytes the plan of an outermost number and two lists takes, or that they break the rules.
#![tactic(auto)]

ghost use Rattle.std.specs.Prelude.{◌≡◌, ◌+◌, ◌≤◌, length};
ghost use Rattle.plan_length.specs.Length.{length_from};
ghost use Rattle.hall_check.specs.Lists.{pairs};
ghost use Rattle.hall_length.specs.Written.{written_entries};
ghost use Rattle.hall_length.specs.Length.{length_within, hall_length_of};
ghost use Rattle.hall_length.specs.Room.{ListsFit};

use answers::PlanRefusal;

// The length of a hall plan whose outermost number takes `first` bytes. Empty halls have no limit in number, so that the count ends once it is too long.
fn entries_length(kinds: &[u8], values: &[u32], first: usize) -> Result<usize, PlanRefusal>
    requires { ListsFit kinds.now values.now × (first ≤ 3) }
    ensures { length_from result ≡ length_within (first + length (written_entries (pairs kinds.now values.now))) }
{
    let mut length = first;
    // The values go by the kinds' index: over a zip of both lists the proof did not close.
    for (i, &kind) in kinds.iter().enumerate() {
        let kind = leb128_write::number_length(u32::from(kind)).unwrap();
        let value = leb128_write::number_length(values[i]).unwrap();
        length += kind + value;
        if plan_read::MAX_PLAN < length {
            return Err(PlanRefusal::TooLong);
        }
    }
    Ok(length)
}

// How many bytes the hall plan of an outermost number and two lists takes. A caller who writes it lends a buffer of exactly this length.
pub fn hall_length(outer: u64, kinds: &[u8], values: &[u32]) -> Result<usize, PlanRefusal>
    ensures { length_from result ≡ hall_length_of outer kinds.now values.now }
{
    if hall_check::halls_allowed(outer, kinds, values) {
        let first = leb128_write::number_length(outer as u32).unwrap();
        return entries_length(kinds, values, first);
    }
    Err(plan_length::NOT_WRITTEN)
}
