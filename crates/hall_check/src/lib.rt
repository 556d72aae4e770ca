// Halls outside their bytes (docs/RULES.md, 'Hall plan'): whether an outermost number of entries and two lists of kinds and values keep the rules.
#![tactic(auto)]

mod lists; // lists.rt: the entries of two lists, one after another

ghost use Rattle.std.specs.Prelude.{◌≡◌};
ghost use Rattle.hall_check.specs.Lists.{lists_allowed};

use lists::Lists;

// Whether an outermost number of entries and two lists keep the rules: as many kinds as values, and then just the entries that the halls promise.
#[tactic(auto, using(crate::proofs::Rules::rule_tests))]
pub fn halls_allowed(outer: u64, kinds: &[u8], values: &[u32]) -> bool
    ensures { result ≡ lists_allowed outer kinds.now values.now }
{
    if kinds.len() != values.len() {
        return false;
    }
    if u64::from(leb128::MAX_NUMBER) < outer {
        return false;
    }
    match hall_read::pass(&Lists { kinds, values }, 0, outer as u32, 0) {
        Ok(end) => end.at == kinds.len(),
        Err(_) => false,
    }
}
