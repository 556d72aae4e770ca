// The entries of two lists of equal length, one after another: a pass goes over them as over those in a hall plan's bytes.
ghost use Rattle.std.specs.Prelude.{◌≡◌, length};
ghost use Rattle.hall_entry.specs.Entries.{Entry};
ghost use Rattle.hall_check.specs.Lists.{pairs, list_head};
ghost use Rattle.hall_check.specs.Laws.Heads.{list_heads};

use answers::Malformed;
use hall_entry::EntryRead;
use hall_read::Entries;

// The kinds of entries, which may be any bytes, and their values: two lists, as C lends them.
#[derive(Clone, Copy)]
pub struct Lists<'a> {
    pub kinds: &'a [u8],
    pub values: &'a [u32],
    ghost equal: { length kinds.now ≡ length values.now },
}

// A reference to them: a pass hands its entries on at each entry, and of two lists it would hand on a copy.
impl Entries for &Lists<'_> {
    ghost Item = { Entry };

    ghost items = { λ lists. pairs lists.now.kinds.now lists.now.values.now };

    ghost head = { list_head };

    #[tactic(auto, using(crate::proofs::Rules::head_tests))]
    fn head_at(self, levels: u32, chutes: u32, at: usize) -> Result<EntryRead, Malformed> {
        if self.kinds.len() <= at {
            return Err(Malformed { place: at });
        }
        let value = self.values[at]; // read before the kind is judged, which makes a pass quicker
        let Some(kind) = hall_entry::kind_allowed(levels, chutes, u32::from(self.kinds[at])) else {
            return Err(Malformed { place: at }); // the kind may not stand here
        };
        if leb128::MAX_NUMBER < value {
            return Err(Malformed { place: at }); // three groups do not hold the value
        }
        Ok(EntryRead {
            kind,
            value,
            next: at + 1,
        })
    }

    ghost heads = { λ lists levels chutes at. list_heads (pairs lists.now.kinds.now lists.now.values.now) levels chutes at };
}
