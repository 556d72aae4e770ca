// A number by the old rule (docs/RULES.md, 'Migration'), under which a number may stand in more groups than it needs. The old rule is read here and in
// `plan_migration`, for plans that are to be migrated, and nowhere else.
#![tactic(auto)]

ghost use Rattle.std.specs.Prelude.{◌≡◌, ◌%◌, get_or, drop};
ghost use Rattle.leb128.specs.Answers.{ReadsNumber};
ghost use Rattle.old_number.specs.OldNumber.{old_number};

use answers::Malformed;
use leb128::Number;

// The seven bits of the group at a place, 0 where no byte is there.
fn group_at(bytes: &[u8], at: usize) -> u32
    ensures { result ≡ get_or bytes.now at 0 % 128 }
{
    u32::from(bytes.get(at).copied().unwrap_or(0)) % 128
}

// The number at a place by the old rule: that of the present rule or, where its last group is empty and one too many, what the groups before it make.
pub fn old_number_at(bytes: &[u8], at: usize) -> Result<Number, Malformed>
    ensures { ReadsNumber (old_number at (drop at bytes.now)) result }
{
    match leb128::number_at(bytes, at) {
        Ok(number) => Ok(number),
        Err(Malformed { place }) if bytes.get(place) == Some(&0) => Ok(Number {
            value: group_at(bytes, at) + 128 * group_at(bytes, at + 1), // the third group, if there is one, is empty
            next: place + 1,
        }),
        Err(malformed) => Err(malformed), // a byte is missing, or a fourth group is promised
    }
}
