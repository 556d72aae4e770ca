// The stores of a plan's rows. The caller has seen that each is allowed, and that there is room for them.
ghost use Rattle.std.specs.Prelude.{◌≡◌, length};
ghost use Rattle.std.proofs.lemmas.List.Edits.{sets};
ghost use Rattle.plan_length.specs.Length.{written_rows};
ghost use Rattle.plan_write.specs.Room.{RowsRoom};

// Writes rows from a place on.
pub fn put_rows(rows: &[u32], out: &mut [u8], first: usize)
    requires { RowsRoom rows.now first (length out.old) }
    ensures { out.new ≡ sets out.old first (written_rows rows.now) }
{
    let mut at = first;
    for &row in rows {
        at = leb128_write::write_number(out, at, row).unwrap();
    }
}
