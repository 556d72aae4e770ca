// The length of a chute plan (docs/RULES.md, 'Chute plan'): how many bytes the plan of some rows takes, or that the rows break the plan's rules.
#![tactic(auto)]

ghost use Rattle.std.specs.Prelude.{◌≡◌};
ghost use Rattle.plan_length.specs.Length.{length_of, length_from, written_from};

use answers::{Malformed, PlanRefusal};

// How many bytes a plan takes, as C has it: 0 and the length, or the refusal's number. The place is that of no breach, but where a plan to be migrated is
// malformed.
#[repr(C)]
#[derive(Clone, Copy)]
pub struct PlanLength {
    pub length: usize,
    pub place: usize,
    pub number: u8,
}

impl From<Result<usize, PlanRefusal>> for PlanLength {
    ghost from_gives = { λ answer length. length ≡ length_from answer };

    fn from(answer: Result<usize, PlanRefusal>) -> PlanLength {
        match answer {
            Ok(length) => PlanLength {
                number: answers::DONE,
                length,
                place: answers::NO_PLACE, // a length has none
            },
            Err(refusal) => PlanLength {
                number: refusal.number(),
                length: 0,
                place: refusal.place(),
            },
        }
    }
}

// The answer of writing a plan, flat or of halls, as C has it: 0, or the refusal's number. The place is that of no breach, but where a plan to be migrated is
// malformed.
#[repr(C)]
#[derive(Clone, Copy)]
pub struct PlanWritten {
    pub place: usize,
    pub number: u8,
}

impl From<Result<(), PlanRefusal>> for PlanWritten {
    ghost from_gives = { λ answer written. written ≡ written_from answer };

    fn from(answer: Result<(), PlanRefusal>) -> PlanWritten {
        match answer {
            Ok(()) => PlanWritten {
                place: answers::NO_PLACE,
                number: answers::DONE,
            },
            Err(refusal) => PlanWritten {
                place: refusal.place(), // what is written is not read: only a plan to be migrated has one
                number: refusal.number(), // 5 or 9
            },
        }
    }
}

// What rows that break the rules are refused for, and a buffer that a plan does not fill: the place is that of no breach, as what is written is not read.
pub const NOT_WRITTEN: PlanRefusal = PlanRefusal::Malformed(Malformed {
    place: answers::NO_PLACE,
});

// How many bytes the plan of these rows takes. A caller who writes it lends a buffer of exactly this length.
pub fn plan_length(rows: &[u32]) -> Result<usize, PlanRefusal>
    ensures { length_from result ≡ length_of rows.now }
{
    if (plan_read::MAX_ROWS as usize) < rows.len() {
        return Err(NOT_WRITTEN);
    }
    let mut length = leb128_write::number_length(rows.len() as u32).ok_or(NOT_WRITTEN)?;
    for &row in rows {
        length += leb128_write::number_length(row).ok_or(NOT_WRITTEN)?;
    }
    Ok(length)
}
