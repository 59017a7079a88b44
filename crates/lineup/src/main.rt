// The program: lines on standard input, answers on standard output, and at the end the serial order of the commits.
#![tactic(auto)]

mod desk;

use anyhow::anyhow;
use conversation::converse;
use desk::Desk;
use serial_runs::{Runs, say_order};
use std::fmt;
use std::io::Write;
use std::process::ExitCode;
use store::{Store, Tables};
use versions::Room;

fn main(rt: HostRuntime) -> ExitCode {
    match run(&rt) {
        Ok(()) => ExitCode::SUCCESS,
        Err(trouble) => {
            let _ = eprintln!(rt; "lineup: {trouble}");
            ExitCode::FAILURE
        }
    }
}

fn run(rt: &HostRuntime) -> anyhow::Result<()> {
    let heap = rt.alloc();
    let mut room = Room::new(heap)?;
    let mut versions = room.versions();
    let mut tables = Tables::new(heap, &mut versions);
    let mut store = Store::over(&mut tables);
    let mut runs = Runs::new(heap, &mut store);
    let mut desk = Desk::new(&mut runs);
    converse(heap, &mut desk, &mut rt.stdin(), &mut rt.stdout())?;
    tell(rt, &runs)
}

// Prints the serial order.
fn tell(rt: &HostRuntime, runs: &Runs) -> anyhow::Result<()> {
    let order = runs
        .line()
        .map_err(|_| anyhow!("no memory for the serial order"))?;
    let mut text = String::new(rt.alloc());
    // Where there is no memory for the text, that is told as a formatting which failed.
    say_order(&mut text, &order).map_err(|_| fmt::Error)?;
    rt.stdout().write_all(text.as_bytes())?;
    Ok(())
}
