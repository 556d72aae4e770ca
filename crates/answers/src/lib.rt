// What an entry answers with: a refusal of the table (docs/RULES.md, 'Numbers'), for the calls that are counted the permutations they took, and for those on
// plans the place where the plan is malformed.
#![tactic(auto)]

ghost use Rattle.std.specs.Prelude.{◌≡◌, ◌+◌};
ghost use Rattle.answers.specs.Numbers.{number_of};
ghost use Rattle.answers.specs.Places.{plan_refusal_number, plan_refusal_place};
ghost use Rattle.answers.specs.Done.{unless_over, outcome_from};
ghost use Rattle.answers.specs.declared.PlanRefusal.{PlanRefusal};

// The number of a call that is not refused.
pub const DONE: u8 = 0;

// What a call is refused for, in the table's order. Of those that apply a call gives the first.
#[derive(Clone, Copy, Debug, PartialEq, Eq)]
pub enum Refusal {
    // A session that is giving is asked to take; a draw from a generator that was never seeded.
    WrongState,
    // A sealing key is not 32 bytes, or a KMAC key is too long.
    BadKeyLength,
    // A name, customisation, IV, additional input or personalisation is too long.
    StringTooLong,
    // cSHAKE256 is asked for with a name of the standard's own.
    ReservedName,
    // A message, text with label, seed or plan is too long.
    InputTooLong,
    // An output is too long, empty where it may not be, or not as long as its text; a session that could not start is asked for bytes.
    BadOutputLength,
    // A tag is too short or too long.
    BadTagLength,
    // The tag is not the one worked out afresh.
    TagMismatch,
    // A plan is malformed, or rows to be written break its rules or do not fill the buffer exactly.
    MalformedPlan,
    // The plan has no such chute.
    NoSuchChute,
}

impl Refusal {
    // Its number, as C has it.
    pub fn number(self) -> u8
        ensures { result ≡ number_of self }
    {
        match self {
            Refusal::WrongState => 1,
            Refusal::BadKeyLength => 2,
            Refusal::StringTooLong => 3,
            Refusal::ReservedName => 4,
            Refusal::InputTooLong => 5,
            Refusal::BadOutputLength => 6,
            Refusal::BadTagLength => 7,
            Refusal::TagMismatch => 8,
            Refusal::MalformedPlan => 9,
            Refusal::NoSuchChute => 10,
        }
    }
}

// Why bytes are no plan, or no part of one: the place at which reading failed.
#[derive(Clone, Copy, Debug, PartialEq, Eq)]
pub struct Malformed {
    pub place: usize,
}

// What an answer on plans is refused for. Only a malformed plan has a place.
#[derive(Clone, Copy, Debug, PartialEq, Eq)]
pub enum PlanRefusal {
    TooLong,
    Malformed(Malformed),
    NoSuchChute,
}

impl PlanRefusal {
    pub fn number(self) -> u8
        ensures { result ≡ plan_refusal_number self }
    {
        match self {
            PlanRefusal::TooLong => Refusal::InputTooLong.number(),
            PlanRefusal::Malformed(_) => Refusal::MalformedPlan.number(),
            PlanRefusal::NoSuchChute => Refusal::NoSuchChute.number(),
        }
    }

    pub fn place(self) -> usize
        ensures { result ≡ plan_refusal_place self }
    {
        match self {
            PlanRefusal::Malformed(malformed) => malformed.place,
            PlanRefusal::TooLong | PlanRefusal::NoSuchChute => NO_PLACE,
        }
    }
}

impl From<Malformed> for PlanRefusal {
    ghost from_gives = { λ malformed refusal. refusal ≡ PlanRefusal.Malformed malformed };

    fn from(malformed: Malformed) -> PlanRefusal {
        PlanRefusal::Malformed(malformed)
    }
}

// The place that an answer on plans tells where nothing that was read is malformed, as specs/Breaches.antt has it.
pub const NO_PLACE: usize = 0;

// The permutations that a call took, 0 on a refusal, and its number; as C has it too.
#[repr(C)]
#[derive(Clone, Copy)]
pub struct Outcome {
    pub runs: usize,
    pub number: u8,
}

impl From<Result<usize, Refusal>> for Outcome {
    ghost from_gives = { λ answer outcome. outcome ≡ outcome_from answer };

    fn from(answer: Result<usize, Refusal>) -> Outcome {
        match answer {
            Ok(runs) => Outcome { runs, number: DONE },
            Err(refusal) => Outcome {
                runs: 0,
                number: refusal.number(),
            },
        }
    }
}

// Refuses a total that more bytes would lead beyond the most that are allowed.
pub fn over_total<E: Copy>(total: usize, more: usize, most: usize, refusal: E) -> Result<(), E>
    ensures { result ≡ unless_over (total + more) most tt refusal }
{
    if most < total {
        return Err(refusal);
    }
    over(more, most - total, refusal)
}

// Refuses more bytes than the most that are allowed.
pub fn over<E: Copy>(bytes: usize, most: usize, refusal: E) -> Result<(), E>
    ensures { result ≡ unless_over bytes most tt refusal }
{
    if most < bytes {
        return Err(refusal);
    }
    Ok(())
}
