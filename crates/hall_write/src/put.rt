// The stores of a hall plan's entries. The caller has seen that three groups hold each number, and that there is room for them.
ghost use Rattle.std.specs.Prelude.{◌≡◌, length};
ghost use Rattle.std.proofs.lemmas.List.Edits.{sets};
ghost use Rattle.hall_check.specs.Lists.{pairs};
ghost use Rattle.hall_length.specs.Written.{written_entries};
ghost use Rattle.hall_write.specs.Room.{EntriesRoom};

// Writes entries from a place on.
pub fn put_entries(kinds: &[u8], values: &[u32], out: &mut [u8], first: usize)
    requires { EntriesRoom kinds.now values.now first (length out.old) }
    ensures { out.new ≡ sets out.old first (written_entries (pairs kinds.now values.now)) }
{
    let mut at = first;
    // The values go by the kinds' index, as where they are counted (hall_length).
    for (i, &kind) in kinds.iter().enumerate() {
        let past_kind = leb128_write::write_number(out, at, u32::from(kind)).unwrap();
        at = leb128_write::write_number(out, past_kind, values[i]).unwrap();
    }
}
