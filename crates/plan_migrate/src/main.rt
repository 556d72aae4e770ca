// The migration program (docs/RULES.md, 'Migration'): reads a plan by the old rule on standard input and writes it by the present one, or nothing where it is
// refused.
#![tactic(auto)]

ghost use Rattle.plan_migrate.specs.Output.{Leaves};

use std::io;

// One byte more than a plan may have tells a plan that is too long, so no input is read further.
const READ: usize = plan_read::MAX_PLAN + 1;

// A function that promises nothing of the array: what a check costs grows with the length of an array whose elements it knows.
fn room() -> [u8; READ] {
    [0u8; READ]
}

fn main(rt: HostRuntime) -> io::Result<()> {
    let mut buffer = room();
    let n = reading::read_full(&mut rt.stdin(), &mut buffer)?;
    let mut out = room();
    let length = migrate(&buffer[..n], &mut out);
    rt.write_all(&out[..length])
}

// Migrates the plan into the first bytes of the buffer, and answers how many these are: none where it is refused.
fn migrate(plan: &[u8], out: &mut [u8]) -> usize
    ensures { Leaves plan.now out.old out.new result }
{
    let Ok(length) = plan_migration::migrated_length(plan) else {
        return 0;
    };
    if out.len() < length {
        return 0; // the buffer is shorter than the plan, since no plan becomes longer
    }
    match plan_migration::migrate(plan, &mut out[..length]) {
        Ok(()) => length,
        Err(_) => 0,
    }
}
