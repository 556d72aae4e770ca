// Runs the permutation from the zero state and prints the state after one, two and 1,002 permutations, a lane to a line. The expected output is that of
// reference/keccak_states.py; the first two states are published ones.
#![tactic(auto)]

use std::io;

// 1,000 permutations.
fn thousand(lanes: [u64; 25]) -> [u64; 25] {
    let mut state = lanes;
    for _ in 0..1000 {
        keccak::permute(&mut state);
    }
    state
}

fn print_state(rt: &impl Print, lanes: [u64; 25]) -> io::Result<()> {
    for lane in lanes {
        println!(rt; "{lane:016x}")?;
    }
    Ok(())
}

fn main(rt: HostRuntime) -> io::Result<()> {
    let once = keccak::keccak_p([0u64; 25]);
    println!(rt; "once")?;
    print_state(&rt, once)?;
    let twice = keccak::keccak_p(once);
    println!(rt; "twice")?;
    print_state(&rt, twice)?;
    println!(rt; "1002 times")?;
    print_state(&rt, thousand(twice))
}
