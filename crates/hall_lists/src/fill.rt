// The stores of entries into two lists. The caller has seen that the place lies inside the plan, and that the lists have one length.
ghost use Rattle.hall_lists.specs.Sequence.{ListsRoom, StoresEntries};

// Stores the entries from a place on, one after another, whatever the halls: the plan has been judged, so here either kind may stand.
pub fn fill_lists(plan: &[u8], start: usize, kinds: &mut [u8], values: &mut [u32])
    requires { ListsRoom start plan.now kinds.old values.old }
    ensures { StoresEntries start plan.now kinds.old values.old kinds.new values.new }
{
    let mut at = start;
    // The values go by the kinds' index: over a zip of both lists the proof did not close.
    for (i, kind) in kinds.iter_mut().enumerate() {
        let Ok(entry) = hall_entry::entry_at(plan, at) else {
            return;
        };
        *kind = u8::from(entry.kind);
        values[i] = entry.value;
        at = entry.next;
    }
}
