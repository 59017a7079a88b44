// Looks, commits and sweeps with all versions in use. Prints a sum over what was seen, which is always the same, and
// with the word `time` also the nanoseconds that each call took, at best.
#![tactic(auto)]

mod rounds;
mod tasks;

use rounds::{Bench, Times};
use std::env;
use versions::Room;

const FEW: u32 = 3;

const MANY: u32 = 600;

fn main(rt: HostRuntime) -> anyhow::Result<()> {
    run(&rt)
}

fn run(rt: &HostRuntime) -> anyhow::Result<()> {
    let timed = env::args(rt)?.nth(1).is_some();
    let heap = rt.alloc();
    let mut room = Room::new(heap)?;
    let mut versions = room.versions();
    let mut bench = Bench::new(rt, &mut versions)?;
    let times = bench.run(if timed { MANY } else { FEW })?;
    let sum = bench.sum();
    println!(rt; "sum {sum}")?;
    if timed { say_all(rt, times) } else { Ok(()) }
}

fn say_all(rt: &HostRuntime, times: Times) -> anyhow::Result<()> {
    say(rt, "look", times.look)?;
    say(rt, "commit", times.commit)?;
    say(rt, "sweep-none", times.copy)?;
    say(rt, "sweep-most", times.sweep)
}

// Prints picoseconds as nanoseconds.
fn say(rt: &HostRuntime, name: &str, time: u64) -> anyhow::Result<()> {
    let whole = time / 1000;
    let tenth = time / 100 % 10;
    println!(rt; "{name} {whole}.{tenth}")?;
    Ok(())
}
