// One entry of a hall plan (docs/RULES.md, 'Hall plan'): whether its kind may stand where it does, and the entry at a place.
#![tactic(auto)]

ghost use Rattle.std.specs.Prelude.{◌≡◌, drop};
ghost use Rattle.plan_read.specs.Plan.{plan_number};
ghost use Rattle.hall_entry.specs.Bytes.{valued, byte_head, entry_head};
ghost use Rattle.hall_entry.specs.Answers.{
  kind_number,
  kind_of,
  allowed_kind,
  head_answer,
  ReadsEntry,
};

use answers::Malformed;
use leb128::Number;

// The limits, as specs/Limits.antt has them.
pub const MAX_CHUTES: u32 = 4096;

// Levels that may stand below the outermost hall, which is level 1 of 8.
pub const LEVELS_BELOW: u32 = 7;

// The kinds of entries.
#[derive(Clone, Copy, Debug, PartialEq, Eq)]
pub enum Kind {
    Chute,
    Hall,
}

// A kind's number, as plans and lists have it.
impl From<Kind> for u8 {
    ghost from_gives = { λ kind number. number ≡ kind_number kind };

    fn from(kind: Kind) -> u8 {
        match kind {
            Kind::Chute => 0,
            Kind::Hall => 1,
        }
    }
}

// An entry that was read: its kind, its destination or its hall's number of entries, and the place past these two numbers.
#[derive(Clone, Copy, Debug, PartialEq, Eq)]
pub struct EntryRead {
    pub kind: Kind,
    pub value: u32,
    pub next: usize,
}

// The kind of this number, if an entry of it may stand here: a chute if fewer than 4,096 stand before it, a hall if a level is left for it. Levels and chutes
// are two parameters here and in head_at: levels are the recursion's own and chutes the pass's, and a struct of both would be made for each entry.
pub fn kind_allowed(levels: u32, chutes: u32, kind: u32) -> Option<Kind>
    ensures { result ≡ allowed_kind levels chutes kind }
{
    match kind {
        0 if chutes < MAX_CHUTES => Some(Kind::Chute),
        1 if 0 < levels => Some(Kind::Hall),
        _ => None,
    }
}

// The entry of a kind whose value stands at a place.
fn entry_of_kind(plan: &[u8], kind: Kind, at: usize) -> Result<EntryRead, Malformed>
    ensures { result ≡ head_answer (valued (kind_number kind) (plan_number at (drop at plan.now))) }
{
    let Number { value, next } = leb128::number_at(plan, at)?; // where the value cannot be read, that place
    Ok(EntryRead { kind, value, next })
}

// The entry that starts at a place, where so many levels are left below and so many chutes stand before it. The kind is judged before the value is read.
pub fn head_at(plan: &[u8], levels: u32, chutes: u32, at: usize) -> Result<EntryRead, Malformed>
    ensures { ReadsEntry (byte_head levels chutes at (drop at plan.now)) result }
{
    let Number { value, next } = leb128::number_at(plan, at)?; // where the kind cannot be read, that place
    match kind_allowed(levels, chutes, value) {
        Some(kind) => entry_of_kind(plan, kind, next), // a kind that may stand here
        None => Err(Malformed { place: at }), // the kind may not stand here
    }
}

// The entry that starts at a place where either kind may stand. It has a body of its own: each of the two then has one caller, and is inlined there.
pub fn entry_at(plan: &[u8], at: usize) -> Result<EntryRead, Malformed>
    ensures { ReadsEntry (entry_head at (drop at plan.now)) result }
{
    let Number { value, next } = leb128::number_at(plan, at)?; // where no kind can be read, that place
    match kind_allowed(1, 0, value) {
        Some(kind) => entry_of_kind(plan, kind, next), // either kind
        None => Err(Malformed { place: at }), // there is no such kind
    }
}
