// The questions on a hall plan (docs/RULES.md, 'Hall plan'): what a caller has to lend to read it, and the destination of a chute.
#![tactic(auto)]

ghost use Rattle.std.specs.Prelude.{◌≡◌};
ghost use Rattle.plan.specs.Answers.{lookup_from};
ghost use Rattle.hall.specs.Answers.{summary_from, hall_summary_of, hall_lookup_of};

use answers::PlanRefusal;

// What a hall plan has: the outermost number of entries, and how many entries and chutes there are.
#[derive(Clone, Copy, Debug, PartialEq, Eq)]
pub struct HallCounts {
    pub outer: u32,
    pub entries: usize,
    pub chutes: u32,
}

#[tactic(auto, using(crate::specs::Laws::summary_read, crate::specs::Laws::summary_refused))]
pub fn read_halls(plan: &[u8]) -> Result<HallCounts, PlanRefusal>
    ensures { summary_from result ≡ hall_summary_of plan.now }
{
    let read = hall_read::read_whole(plan, 0)?;
    Ok(HallCounts {
        outer: read.outer,
        entries: read.entries,
        chutes: read.chutes,
    })
}

// The destination of a chute. The plan is read whole before the chute is judged.
#[tactic(auto, using(crate::specs::Laws::lookup_found, crate::specs::Laws::lookup_missing, crate::specs::Laws::lookup_refused))]
pub fn destination(plan: &[u8], chute: u64) -> Result<u32, PlanRefusal>
    ensures { lookup_from result ≡ hall_lookup_of plan.now chute }
{
    let read = hall_read::read_whole(plan, chute)?;
    if plan::has_chute(read.chutes, chute) {
        return Ok(read.found);
    }
    Err(PlanRefusal::NoSuchChute)
}

// The answer of reading a hall plan, as C has it: 0, the outermost number of entries, and how many entries and chutes there are; or the refusal's number and,
// with 9, the place at which the plan is malformed.
#[repr(C)]
#[derive(Clone, Copy)]
pub struct HallSummary {
    pub entries: usize,
    pub place: usize,
    pub outer: u32,
    pub chutes: u32,
    pub number: u8,
}

impl From<Result<HallCounts, PlanRefusal>> for HallSummary {
    ghost from_gives = { λ answer summary. summary ≡ summary_from answer };

    fn from(answer: Result<HallCounts, PlanRefusal>) -> HallSummary {
        match answer {
            Ok(counts) => HallSummary {
                number: answers::DONE,
                outer: counts.outer,
                entries: counts.entries,
                chutes: counts.chutes,
                place: answers::NO_PLACE, // the plan is well-formed
            },
            Err(refusal) => HallSummary {
                number: refusal.number(),
                outer: 0,
                entries: 0,
                chutes: 0,
                place: refusal.place(),
            },
        }
    }
}
