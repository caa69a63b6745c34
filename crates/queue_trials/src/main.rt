// Holds 100,000 turns of the queue against a plain scan.
#![tactic(auto)]

mod scan;
mod sides;
#[cfg(test)]
mod tests;
mod trial;

use trial::round;

const ROUNDS: u32 = 400;

// How many turns of all rounds agreed.
fn agreed() -> u32 {
    let mut x = 1;
    let mut sum = 0;
    for _ in 0..ROUNDS {
        let (n, last) = round(x);
        sum += n;
        x = last;
    }
    sum
}

fn run(rt: &HostRuntime) -> anyhow::Result<()> {
    let n = agreed();
    println!(rt; "{n} of 100000 turns of the queue agreed with a plain scan")?;
    Ok(())
}

fn main(rt: HostRuntime) -> anyhow::Result<()> {
    run(&rt)
}
