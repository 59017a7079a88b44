// The program: lines on standard input, answers on standard output, commits in a file.
#![tactic(auto)]

mod disk;
mod hall;
mod trouble;

use anyhow::anyhow;
use conversation::converse;
use disk::Place;
use hall::Hall;
use journal::Journal;
use std::env;
use std::process::ExitCode;
use store::{Store, Tables};
use trouble::Trouble;
use versions::Room;

// So many bytes of records are gathered before they are written to the file.
const RECORDS: usize = 131072;

fn main(rt: HostRuntime) -> ExitCode {
    match file_name(&rt) {
        Ok(name) => told(
            &rt,
            &name,
            run(Place {
                rt: &rt,
                name: &name,
            }),
        ),
        Err(trouble) => told(&rt, "", Err(trouble)),
    }
}

// The only argument.
fn file_name(rt: &HostRuntime) -> Result<String, Trouble> {
    let mut args = env::args(rt)?.skip(1);
    match (args.next(), args.next()) {
        (Some(name), None) => Ok(name),
        _ => Err(Trouble::Other(anyhow!("give the name of the file: engine FILE"))),
    }
}

// Says in one line what went wrong, if something did. Where nobody can be told, the status says it.
fn told(rt: &HostRuntime, name: &str, res: Result<(), Trouble>) -> ExitCode {
    let _ = match res {
        Ok(()) => return ExitCode::SUCCESS,
        Err(Trouble::File { what, why }) => eprintln!(rt; "engine: {name} {what}: {why}"),
        Err(Trouble::Other(why)) => eprintln!(rt; "engine: {why}"),
    };
    ExitCode::FAILURE
}

fn run(place: Place<'_>) -> Result<(), Trouble> {
    let heap = place.rt.alloc();
    let mut room = Room::new(heap)?;
    let mut versions = room.versions();
    let mut tables = Tables::new(heap, &mut versions);
    let mut store = Store::over(&mut tables);
    let mut records = vec![in heap; 0u8; RECORDS]?;
    let mut journal = Journal::over(records.as_mut_slice());
    let mut hall = Hall::open(place, &mut store, &mut journal)?;
    hall.load()?;
    let rt = place.rt;
    converse(heap, &mut hall, &mut rt.stdin(), &mut rt.stdout())
}
