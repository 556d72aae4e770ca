// One seven-bit number (LEB128; docs/RULES.md, 'Chute plan'), read at a place.
#![tactic(auto)]

ghost use Rattle.std.specs.Prelude.{◌≡◌, true, false, drop, ◌%◌};
ghost use Rattle.leb128.specs.Number.{number, next_group, groups};
ghost use Rattle.leb128.specs.Answers.{ReadsNumber};

use answers::Malformed;

// The largest number of three groups, as specs/Number.antt has it.
pub const MAX_NUMBER: u32 = 2097151;

// A number that was read: its value, and the place past it.
#[derive(Clone, Copy, Debug, PartialEq, Eq)]
pub struct Number {
    pub value: u32,
    pub next: usize,
}

// The number whose first two groups are given, by the group at a place. The bytes are lent whole, and no part of them: answers tell places in the whole.
fn third_at(bytes: &[u8], at: usize, first: u32, second: u32) -> Result<Number, Malformed>
    ensures { ReadsNumber (next_group (first % 128) (next_group (second % 128) (groups false 0 at (drop at bytes.now)))) result }
{
    if bytes.len() <= at {
        return Err(Malformed { place: at }); // the third byte is missing
    }
    let group = u32::from(bytes[at]);
    if group < 128 {
        if group == 0 {
            return Err(Malformed { place: at }); // the third group is more than the number needs
        }
        return Ok(Number {
            value: first % 128 + 128 * (second % 128 + 128 * group),
            next: at + 1, // past the third group
        });
    }
    Err(Malformed { place: at }) // a fourth group is promised
}

// The number whose first group is given, by the groups at a place.
fn second_at(bytes: &[u8], at: usize, first: u32) -> Result<Number, Malformed>
    ensures { ReadsNumber (next_group (first % 128) (groups false 1 at (drop at bytes.now))) result }
{
    if bytes.len() <= at {
        return Err(Malformed { place: at }); // the second byte is missing
    }
    let group = u32::from(bytes[at]);
    if group < 128 {
        if group == 0 {
            return Err(Malformed { place: at }); // the second group is more than the number needs
        }
        return Ok(Number {
            value: first % 128 + 128 * group,
            next: at + 1, // past the second group
        });
    }
    third_at(bytes, at + 1, first, group)
}

// The number at a place: groups of seven bits, lowest first, top bit set when another follows, at most three and no more than it needs. Straight-line
// code: most numbers end with their first group.
pub fn number_at(bytes: &[u8], at: usize) -> Result<Number, Malformed>
    ensures { ReadsNumber (number at (drop at bytes.now)) result }
{
    if bytes.len() <= at {
        return Err(Malformed { place: at }); // the first byte is missing
    }
    let first = u32::from(bytes[at]);
    if first < 128 {
        return Ok(Number {
            value: first,
            next: at + 1, // past the only group
        });
    }
    second_at(bytes, at + 1, first)
}
