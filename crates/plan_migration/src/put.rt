// The stores of a migrated plan. The caller has seen that the plan can be read by the old rule, and that there is room for it.
ghost use Rattle.std.specs.Prelude.{◌≡◌, length, drop};
ghost use Rattle.std.proofs.lemmas.List.Edits.{sets};
ghost use Rattle.old_number.specs.OldNumber.{old_number};
ghost use Rattle.plan_read.specs.Plan.{rows_by};
ghost use Rattle.plan_length.specs.Length.{written_rows, written_plan};
ghost use Rattle.plan_migration.specs.Migration.{old_plan_of};
ghost use Rattle.plan_migration.specs.Room.{RowsRoom, PlanRoom, destinations_in};

// Writes the rows that stand from one place on in the plan, from another on in the buffer.
fn put_rows(plan: &[u8], first: usize, count: u32, out: &mut [u8], start: usize)
    requires { RowsRoom (rows_by old_number count first (drop first plan.now)) start (length out.old) }
    ensures { out.new
        ≡ sets out.old start (written_rows (destinations_in (rows_by old_number count first (drop first plan.now)))) }
{
    let mut at = first;
    let mut to = start;
    for _ in 0..count {
        let row = old_number::old_number_at(plan, at).unwrap();
        to = leb128_write::write_number(out, to, row.value).unwrap();
        at = row.next;
    }
}

// Writes the number of rows and the rows.
pub fn put_plan(plan: &[u8], out: &mut [u8])
    requires { PlanRoom (old_plan_of plan.now) (length out.old) }
    ensures { out.new ≡ written_plan (destinations_in (old_plan_of plan.now)) }
{
    let rows = old_number::old_number_at(plan, 0).unwrap();
    let start = leb128_write::write_number(out, 0, rows.value).unwrap();
    put_rows(plan, rows.next, rows.value, out, start);
}
