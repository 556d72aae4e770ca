// The chute plan: reading, looking up, the row of two plans as an offset and a length, writing, walking, and migrating.
ghost use Rattle.std.specs.Prelude.{◌≡◌};
ghost use Rattle.plan.specs.Answers.{summary_of, lookup_of};
ghost use Rattle.plan_pair.specs.Pair.{location_of};
ghost use Rattle.plan_length.specs.Length.{length_of};
ghost use Rattle.plan_write.specs.Write.{WritesPlan};
ghost use Rattle.plan_migration.specs.Migration.{migrated_length_of, Migrates};
ghost use Rattle.plan_walk.specs.Walk.{walk_start, walk_step};
ghost use Rattle.c_plan.specs.Row.{exported_location};
ghost use Rattle.c_plan.specs.Walk.{exported_answer};

use c_plan::{CRow, CWalk};
use plan::{Lookup, PlanSummary};
use plan_length::{PlanLength, PlanWritten};
use plan_walk::Cursor;

#[unsafe(no_mangle)]
pub extern "C" fn hf_plan_read(plan: &[u8]) -> PlanSummary
    ensures { result ≡ summary_of plan.now }
{
    PlanSummary::from(plan::read_plan(plan))
}

#[unsafe(no_mangle)]
pub extern "C" fn hf_plan_destination(plan: &[u8], chute: u64) -> Lookup
    ensures { result ≡ lookup_of plan.now chute }
{
    Lookup::from(plan::destination(plan, chute))
}

#[unsafe(no_mangle)]
pub extern "C" fn hf_plan_row(site: &[u8], house: &[u8], chute: u64) -> CRow
    ensures { result ≡ exported_location (location_of site.now house.now chute) }
{
    c_plan::row(site, house, chute)
}

#[unsafe(no_mangle)]
pub extern "C" fn hf_plan_length(rows: &[u32]) -> PlanLength
    ensures { result ≡ length_of rows.now }
{
    PlanLength::from(plan_length::plan_length(rows))
}

#[unsafe(no_mangle)]
pub extern "C" fn hf_plan_write(rows: &[u32], out: &mut [u8]) -> PlanWritten
    ensures { WritesPlan rows.now out.old out.new result }
{
    PlanWritten::from(plan_write::write_plan(rows, out))
}

#[unsafe(no_mangle)]
pub extern "C" fn hf_plan_start(plan: &[u8]) -> Cursor
    ensures { result ≡ walk_start plan.now }
{
    plan_walk::start_at(plan)
}

#[unsafe(no_mangle)]
pub extern "C" fn hf_plan_step(plan: &[u8], walk: Cursor) -> CWalk
    ensures { result ≡ exported_answer (walk_step plan.now walk) }
{
    c_plan::step(plan, walk)
}

#[unsafe(no_mangle)]
pub extern "C" fn hf_plan_migrated_length(plan: &[u8]) -> PlanLength
    ensures { result ≡ migrated_length_of plan.now }
{
    PlanLength::from(plan_migration::migrated_length(plan))
}

#[unsafe(no_mangle)]
pub extern "C" fn hf_plan_migrate(plan: &[u8], out: &mut [u8]) -> PlanWritten
    ensures { Migrates plan.now out.old out.new result }
{
    PlanWritten::from(plan_migration::migrate(plan, out))
}
