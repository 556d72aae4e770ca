// Entries one after another, wherever they stand, and the pass over them. Recursion goes by level, eight deep at most; the entries of a hall are a loop.
ghost use Rattle.std.specs.Prelude.{◌≡◌, ◌+◌, ◌≤◌, ◌<◌, ℕ, List, [], ◌∷◌, drop};
ghost use Rattle.hall_entry.specs.Limits.{max_chutes, levels_below};
ghost use Rattle.hall_entry.specs.Entries.{chute_kind, entry, Head, entries_of, entry_of};
ghost use Rattle.hall_entry.specs.Answers.{head_answer};
ghost use Rattle.hall_entry.specs.Laws.Heads.{HeadAfter};
ghost use Rattle.hall_read.specs.Passing.{start_at, moved_past, passed_over, inside_hall};

use crate::Progress;
use answers::Malformed;
use hall_entry::{EntryRead, Kind};

// Entries that stand one after another: in the bytes of a hall plan, or in two lists.
pub trait Entries: Copy {
    // the list that they stand in, and the entry that stands first in such a list
    ghost Item: { Type 0 };

    ghost items: { Self → List Item };

    ghost head: { ℕ → ℕ → ℕ → List Item → Head Item };

    // The entry that starts at a place, where so many levels are left below and so many chutes stand before it.
    fn head_at(self, levels: u32, chutes: u32, at: usize) -> Result<EntryRead, Malformed>
        ensures { result ≡ head_answer (head levels chutes at (drop at (items self))) };

    // an entry that is read may stand there, and ends inside the list
    ghost heads: { (s : Self) (levels chutes at : ℕ) → HeadAfter (items s) levels chutes at (head levels chutes at (drop at (items s))) };
}

// Passes over the entries of the outermost hall, `outer` of them, from the place of the first, and keeps the destination of one chute.
pub fn pass<E: Entries>(
    entries: E,
    first: usize,
    outer: u32,
    chute: u64,
) -> Result<Progress, Malformed>
    ensures { result ≡ passed_over chute (start_at first) (entries_of E.head levels_below outer first 0 (drop first (E.items entries))) }
{
    let from = Progress {
        at: first,
        entries: 0,
        chutes: 0,
        found: 0,
    };
    pass_hall(entries, outer, hall_entry::LEVELS_BELOW, chute, from)
}

// A pass, past a chute.
#[tactic(auto, unfolding(crate::specs::Passing::kept, hall_entry::specs::Entries::destinations))]
fn past_chute(from: Progress, chute: u64, destination: u32, next: usize) -> Progress
    requires { (from.entries + 1 ≤ next) × (from.chutes < max_chutes) }
    ensures { result ≡ moved_past chute from (entry chute_kind destination ∷ []) next }
{
    let chutes = from.chutes + 1;
    let found = if u64::from(chutes) == chute {
        destination
    } else {
        from.found
    };
    Progress {
        at: next,
        entries: from.entries + 1,
        chutes,
        found,
    }
}

// A pass at a hall's first entry, past the hall's kind and its number of entries.
fn into_hall(from: Progress, next: usize) -> Progress
    requires { from.entries + 1 ≤ next }
    ensures { result ≡ inside_hall from next }
{
    Progress {
        at: next,
        entries: from.entries + 1, // the hall
        ..from
    }
}

// Passes over the entries of a hall, `count` of them, with so many levels left below it. The entries and the chute that is looked for stay two parameters of
// these two functions: a struct of both would say no more than their names.
#[cycle(pass_entry_pass_hall)]
fn pass_hall<E: Entries>(
    entries: E,
    count: u32,
    levels: u32,
    chute: u64,
    from: Progress,
) -> Result<Progress, Malformed>
    requires { from.entries ≤ from.at }
    ensures { result ≡ passed_over chute from (entries_of E.head levels count from.at from.chutes (drop from.at (E.items entries))) }
{
    let mut progress = from;
    for _ in 0..count {
        progress = pass_entry(entries, levels, chute, progress)?;
    }
    Ok(progress)
}

// Passes over one entry, with the hall that it holds.
#[cycle(pass_entry_pass_hall)]
fn pass_entry<E: Entries>(
    entries: E,
    levels: u32,
    chute: u64,
    from: Progress,
) -> Result<Progress, Malformed>
    requires { from.entries ≤ from.at }
    ensures { result ≡ passed_over chute from (entry_of E.head levels from.at from.chutes (drop from.at (E.items entries))) }
{
    let EntryRead { kind, value, next } = entries.head_at(levels, from.chutes, from.at)?;
    match kind {
        Kind::Chute => Ok(past_chute(from, chute, value, next)),
        Kind::Hall => pass_hall(entries, value, levels - 1, chute, into_hall(from, next)),
    }
}
