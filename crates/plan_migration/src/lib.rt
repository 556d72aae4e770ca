// Migration (docs/RULES.md, 'Migration'): a chute plan read by the old rule and written by the present one. The rows are read twice and kept nowhere.
#![tactic(auto)]

use answers::{Malformed, PlanRefusal};

mod put; // put.rt: the stores, once it is known that there is room

ghost use Rattle.std.specs.Prelude.{◌≡◌, ◌≤◌, drop};
ghost use Rattle.leb128_write.specs.Answers.{number_length};
ghost use Rattle.plan_read.specs.Limits.{max_rows};
ghost use Rattle.plan_read.specs.Plan.{rows_by};
ghost use Rattle.old_number.specs.OldNumber.{old_number};
ghost use Rattle.plan_length.specs.Length.{length_from, written_from};
ghost use Rattle.plan_migration.specs.Migration.{migrated_length_of, Migrates};
ghost use Rattle.plan_migration.specs.Room.{length_with};

// How many bytes a number of rows and the rows from a place on take in the fewest groups.
fn rows_length(plan: &[u8], first: usize, count: u32) -> Result<usize, PlanRefusal>
    requires { count ≤ max_rows }
    ensures { length_from result ≡ length_with (number_length count) (rows_by old_number count first (drop first plan.now)) }
{
    let mut length = leb128_write::number_length(count).unwrap();
    let mut at = first;
    for _ in 0..count {
        let row = old_number::old_number_at(plan, at)?;
        length += leb128_write::number_length(row.value).unwrap();
        at = row.next;
    }
    if at < plan.len() {
        return Err(PlanRefusal::Malformed(Malformed { place: at })); // the first byte after the last row
    }
    Ok(length)
}

// How many bytes the migrated plan takes, which are never more than the plan has. A caller who migrates it lends a buffer of exactly this length.
pub fn migrated_length(plan: &[u8]) -> Result<usize, PlanRefusal>
    ensures { length_from result ≡ migrated_length_of plan.now }
{
    if plan_read::MAX_PLAN < plan.len() {
        return Err(PlanRefusal::TooLong);
    }
    let rows = old_number::old_number_at(plan, 0)?;
    if plan_read::MAX_ROWS < rows.value {
        return Err(PlanRefusal::Malformed(Malformed { place: 0 })); // the place of a plan with too many rows
    }
    rows_length(plan, rows.next, rows.value)
}

// Reads a plan by the old rule and writes it by the present one, into a buffer that it fills exactly; on a refusal nothing is written.
pub fn migrate(plan: &[u8], out: &mut [u8]) -> Result<(), PlanRefusal>
    ensures { Migrates plan.now out.old out.new (written_from result) }
{
    let needed = migrated_length(plan)?;
    if needed != out.len() {
        return Err(plan_length::NOT_WRITTEN);
    }
    put::put_plan(plan, out);
    Ok(())
}
