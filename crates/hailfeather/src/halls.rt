// The hall plan: reading, looking up, reading into lists, and writing.
ghost use Rattle.std.specs.Prelude.{◌≡◌};
ghost use Rattle.hall.specs.Answers.{hall_summary_of, hall_lookup_of};
ghost use Rattle.hall_lists.specs.Lists.{FillsLists};
ghost use Rattle.hall_length.specs.Length.{hall_length_of};
ghost use Rattle.hall_write.specs.Write.{WritesHalls};

use hall::HallSummary;
use plan::Lookup;
use plan_length::{PlanLength, PlanWritten};

#[unsafe(no_mangle)]
pub extern "C" fn hf_hall_read(plan: &[u8]) -> HallSummary
    ensures { result ≡ hall_summary_of plan.now }
{
    HallSummary::from(hall::read_halls(plan))
}

#[unsafe(no_mangle)]
pub extern "C" fn hf_hall_destination(plan: &[u8], chute: u64) -> Lookup
    ensures { result ≡ hall_lookup_of plan.now chute }
{
    Lookup::from(hall::destination(plan, chute))
}

#[unsafe(no_mangle)]
pub extern "C" fn hf_hall_read_into(
    plan: &[u8],
    kinds: &mut [u8],
    values: &mut [u32],
) -> HallSummary
    ensures { FillsLists plan.now kinds.old values.old kinds.new values.new result }
{
    HallSummary::from(hall_lists::read_into(plan, kinds, values))
}

#[unsafe(no_mangle)]
pub extern "C" fn hf_hall_length(outer: u64, kinds: &[u8], values: &[u32]) -> PlanLength
    ensures { result ≡ hall_length_of outer kinds.now values.now }
{
    PlanLength::from(hall_length::hall_length(outer, kinds, values))
}

#[unsafe(no_mangle)]
pub extern "C" fn hf_hall_write(
    outer: u64,
    kinds: &[u8],
    values: &[u32],
    out: &mut [u8],
) -> PlanWritten
    ensures { WritesHalls outer kinds.now values.now out.old out.new result }
{
    PlanWritten::from(hall_write::write_halls(outer, kinds, values, out))
}
