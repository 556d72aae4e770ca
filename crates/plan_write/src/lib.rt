// Writing a chute plan (docs/RULES.md, 'Chute plan'): rows written into a lent buffer that they fill exactly.
#![tactic(auto)]

use answers::PlanRefusal;

mod put; // put.rt: the stores, once it is known that there is room

ghost use Rattle.std.specs.Prelude.{◌≡◌};
ghost use Rattle.plan_length.specs.Length.{written_from};
ghost use Rattle.plan_write.specs.Write.{WritesPlan};

// Writes the plan of these rows into a buffer that they fill exactly; a refusal has number 9, and nothing is written.
pub fn write_plan(rows: &[u32], out: &mut [u8]) -> Result<(), PlanRefusal>
    ensures { WritesPlan rows.now out.old out.new (written_from result) }
{
    let needed = plan_length::plan_length(rows)?;
    if needed != out.len() {
        return Err(plan_length::NOT_WRITTEN);
    }
    let first = leb128_write::write_number(out, 0, rows.len() as u32).unwrap();
    put::put_rows(rows, out, first);
    Ok(())
}
