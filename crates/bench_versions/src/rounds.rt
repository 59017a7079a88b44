// Rounds of the tasks, and how long they took.
use crate::tasks::{Dice, deal_looks, deal_writes, fill, look, mixed, top_up};
use model::Entry;
use std::alloc::{AllocError, Global};
use std::io;
use std::time::Instant;
use versions::Versions;

// As many writes as there is room for versions, and as many looks.
const LENGTH: usize = 32768;

// The writes of a round, two to a commit, and its looks: a key, and how many commits are done.
#[derive(Drop)]
struct Lists {
    writes: Vec<Entry>,
    looks: Vec<Entry>,
}

impl Lists {
    fn new(heap: Global) -> Result<Lists, AllocError> {
        Ok(Lists {
            writes: vec![in heap; Entry::default(); LENGTH]?,
            looks: vec![in heap; Entry::default(); LENGTH]?,
        })
    }
}

// The versions, and what goes on from round to round.
#[derive(Drop)]
pub struct Bench<'b, 'v> {
    rt: &'b HostRuntime,
    versions: &'b mut Versions<'v>,
    lists: Lists,
    dice: Dice,
    number: u32,
    sum: u32,
}

// Picoseconds for one call of each.
#[derive(Clone, Copy)]
pub struct Times {
    pub look: u64,
    pub commit: u64,
    pub copy: u64,
    pub sweep: u64,
}

impl Times {
    fn lower(self, other: Times) -> Times {
        Times {
            look: self.look.min(other.look),
            commit: self.commit.min(other.commit),
            copy: self.copy.min(other.copy),
            sweep: self.sweep.min(other.sweep),
        }
    }
}

// Picoseconds for each of so many calls since the start.
fn each(rt: &HostRuntime, start: Instant, calls: u32) -> io::Result<u64> {
    let time = start.elapsed(rt)?;
    let seconds = time.as_secs().saturating_mul(1000000000);
    let nanos = seconds.saturating_add(time.subsec_nanos() as u64);
    Ok(
        nanos
            .saturating_mul(1000)
            .checked_div(calls as u64)
            .unwrap_or(0),
    )
}

impl<'b, 'v> Bench<'b, 'v> {
    pub fn new(
        rt: &'b HostRuntime,
        versions: &'b mut Versions<'v>,
    ) -> Result<Bench<'b, 'v>, AllocError> {
        Ok(Bench {
            rt,
            versions,
            lists: Lists::new(rt.alloc())?,
            dice: Dice::new(),
            number: 0,
            sum: 0,
        })
    }
}

impl Bench<'_, '_> {
    pub fn sum(&self) -> u32 {
        self.sum
    }

    fn fill(&mut self) -> io::Result<u64> {
        deal_writes(&mut self.dice, self.lists.writes.as_mut_slice());
        let first = self.number;
        let start = Instant::now(self.rt)?;
        let number = fill(self.versions, &self.lists.writes, first);
        let time = each(self.rt, start, number.wrapping_sub(first))?;
        self.number = top_up(self.versions, number);
        self.sum = mixed(self.sum, self.versions.count());
        Ok(time)
    }

    fn look(&mut self) -> io::Result<u64> {
        deal_looks(&mut self.dice, self.lists.looks.as_mut_slice(), self.number);
        let start = Instant::now(self.rt)?;
        let seen = look(self.versions, &self.lists.looks);
        let time = each(self.rt, start, LENGTH as u32)?;
        self.sum = mixed(self.sum, seen);
        Ok(time)
    }

    fn sweep(&mut self, floor: u32) -> io::Result<u64> {
        let start = Instant::now(self.rt)?;
        self.versions.sweep(floor);
        let time = each(self.rt, start, 1)?;
        self.sum = mixed(self.sum, self.versions.count());
        Ok(time)
    }

    // Fills up the versions, looks, and sweeps twice: once so that all stay, and once so that one for each key does.
    fn round(&mut self) -> io::Result<Times> {
        Ok(Times {
            commit: self.fill()?,
            look: self.look()?,
            copy: self.sweep(0)?,
            sweep: self.sweep(self.number)?,
        })
    }

    // So many rounds, and the lowest times.
    pub fn run(&mut self, rounds: u32) -> io::Result<Times> {
        let mut times = self.round()?;
        for _ in 1..rounds {
            times = times.lower(self.round()?);
        }
        Ok(times)
    }
}
