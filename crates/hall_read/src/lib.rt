// Reading a hall plan (docs/RULES.md, 'Hall plan'): a hall plan read whole in one pass, and the pass itself, over entries wherever they stand.
#![tactic(auto)]

mod passing; // passing.rt: entries one after another, and the pass over a hall and over an entry, which call each other

ghost use Rattle.std.specs.Prelude.{◌≡◌, ℕ};
ghost use Rattle.hall_entry.specs.Bytes.{byte_head};
ghost use Rattle.hall_entry.specs.Laws.Bytes.{byte_heads};
ghost use Rattle.hall_read.specs.Halls.{halls_of};
ghost use Rattle.hall_read.specs.Answers.{ReadsHalls};

use answers::{Malformed, PlanRefusal};
use hall_entry::EntryRead;
use leb128::Number;
pub use passing::{Entries, pass};

// How far a pass over entries has come: the place that it stands at, the entries and the chutes before it, and the destination of the chute that is looked
// for, 0 until it is found.
#[derive(Clone, Copy)]
pub struct Progress {
    pub at: usize,
    pub entries: usize,
    pub chutes: u32,
    pub found: u32,
}

// What a whole hall plan has: the outermost number of entries, how many entries and chutes there are, and the destination of one chute, 0 where there is none.
#[derive(Clone, Copy, Debug, PartialEq, Eq)]
pub struct HallRead {
    pub outer: u32,
    pub entries: usize,
    pub chutes: u32,
    pub found: u32,
}

// Entries in the bytes of a hall plan.
impl Entries for &[u8] {
    ghost Item = { ℕ };

    ghost items = { λ plan. plan.now };

    ghost head = { byte_head };

    fn head_at(self, levels: u32, chutes: u32, at: usize) -> Result<EntryRead, Malformed> {
        hall_entry::head_at(self, levels, chutes, at)
    }

    ghost heads = { λ plan levels chutes at. byte_heads plan.now levels chutes at };
}

// Reads a hall plan whole, in one pass, and keeps the destination of one chute.
pub fn read_whole(plan: &[u8], chute: u64) -> Result<HallRead, PlanRefusal>
    ensures { ReadsHalls chute (halls_of plan.now) result }
{
    if plan_read::MAX_PLAN < plan.len() {
        return Err(PlanRefusal::TooLong);
    }
    let Number { value: outer, next } = leb128::number_at(plan, 0)?;
    let end = pass(plan, next, outer, chute)?;
    if end.at < plan.len() {
        return Err(PlanRefusal::Malformed(Malformed { place: end.at })); // the first byte after the last entry
    }
    Ok(HallRead {
        outer,
        entries: end.entries,
        chutes: end.chutes,
        found: end.found,
    })
}
