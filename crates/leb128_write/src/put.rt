// The stores of a number's groups, lowest first, where there is room for them.
ghost use Rattle.std.specs.Prelude.{◌≡◌, length};
ghost use Rattle.leb128_write.specs.Room.{past_groups, groups_stored};

// Stores groups at a place, and answers the place past them; none, and nothing is stored, where there is no room for them.
pub fn put_groups(out: &mut [u8], at: usize, groups: &[u8]) -> Option<usize>
    ensures { (result ≡ past_groups at groups.now (length out.old)) × (out.new ≡ groups_stored at groups.now out.old) }
{
    let room = out.len().checked_sub(at)?;
    if room < groups.len() {
        return None;
    }
    let past = at + groups.len();
    out[at..past].copy_from_slice(groups);
    Some(past)
}
