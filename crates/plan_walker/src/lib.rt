// The walker (docs/RULES.md, 'Chute plan'): keeps a lent plan and where it stands in it, and hands out the rows' destinations one after another.
#![tactic(auto)]

ghost use Rattle.std.specs.Prelude.{◌≡◌};
ghost use Rattle.plan_walk.specs.Walk.{walk_start};
ghost use Rattle.plan_walker.specs.Walker.{walker_at, asks, moved};

use plan_walk::{Cursor, WalkAnswer};

// The lent plan, and where the walk over it stands.
#[derive(Clone, Copy)]
pub struct Walker<'a> {
    pub plan: &'a [u8],
    pub cursor: Cursor,
}

impl<'a> Walker<'a> {
    // A walker at the first row of a plan.
    pub fn new(plan: &'a [u8]) -> Walker<'a>
        ensures { result ≡ walker_at plan.entry (walk_start plan.now) }
    {
        Walker {
            plan,
            cursor: plan_walk::start_at(plan),
        }
    }

    // An ask: the next row's destination, and the walker stands past that row.
    pub fn next(&mut self) -> WalkAnswer
        ensures { (result ≡ asks self.old) × (self.new ≡ moved self.old result.next) }
    {
        let answer = plan_walk::step_at(self.plan, self.cursor);
        self.cursor = answer.next;
        answer
    }
}
