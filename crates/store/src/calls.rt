// What each call does.
ghost use Rattle.std.specs.Prelude.{◌≡◌, true, count_by, IfOk, ◌==◌};
ghost use Rattle.transactions.specs.declared.slot.Slot.{Slot};
ghost use Rattle.transactions.specs.Slots.{idle, run_of, is_going, read, wrote, begin_refused, read_refused, write_refused, end_refused};
ghost use Rattle.transactions.specs.Transactions.{model_of};
ghost use Rattle.model.specs.declared.Call.TheVariants.{Begin, Read, Write, Commit, Abort, Sweep, Stop};
ghost use Rattle.model.specs.Refusals.{refusal_in};
ghost use Rattle.versions.specs.Store.{spaces};
ghost use Rattle.journal.specs.declared.gather.Journal.{Journal};
ghost use Rattle.history.specs.Engine.{fresh, out_of_bounds};
ghost use Rattle.store.specs.Fits.{counts, lower_run, floor_by, run_at};
ghost use Rattle.store.specs.Calls.{Is, Refuses, SlotRefuses, Judges, Puts, Keeps, Performs, PerformsOr, PerformsRecording, Counted, Finds, StandsAt, Looks, CommitsBy, Enters};

use crate::state::Tables;
use conflicts::Window;
use journal::{Journal, LARGEST_RECORD};
use model::{Answer, Call, Counts, Entry, KEYS, Level, Refusal, Reply};
use std::alloc::{AllocError, Global};
use transactions::{Slot, Transaction};
use versions::{ROOM, Versions};

const SLOTS: u32 = 16;

// Whether a number of the call is out of bounds.
pub fn is_out_of_bounds(call: Call) -> bool
    ensures { result ≡ out_of_bounds call }
{
    match call {
        Call::Begin { slot, level } => slot >= SLOTS || level.is_none(),
        Call::Read { slot, from, to } => slot >= SLOTS || to <= from || to > KEYS,
        Call::Write { slot, key, .. } => slot >= SLOTS || key >= KEYS,
        Call::Commit { slot } | Call::Abort { slot } => slot >= SLOTS,
        Call::Sweep | Call::Sync | Call::Stop | Call::Show => false,
    }
}

// The lower of a floor and the begin of what runs in the slot, if that is Serial, or a Snapshot where these count.
fn lower(slot: &Slot, floor: u32, snapshots: bool) -> u32
    ensures { result ≡ lower_run (counts snapshots) floor (run_of slot.now) }
{
    let Some(t) = &slot.running else {
        return floor;
    };
    match t.level {
        Level::Latest => floor,
        Level::Snapshot => if snapshots { floor.min(t.begin) } else { floor },
        Level::Serial => floor.min(t.begin),
    }
}

// What a read finds, and how many commits it sees.
#[derive(Drop)]
struct Seen {
    at: u32,
    entries: Vec<Entry>,
}

fn check_begin(slot: Slot) -> Result<(), Refusal>
    ensures { refusal_in result ≡ begin_refused (run_of slot) }
{
    if slot.is_busy() {
        return Err(Refusal::SlotState);
    }
    Ok(())
}

fn check_abort(slot: Slot) -> Result<(), Refusal>
    ensures { refusal_in result ≡ end_refused (run_of slot) }
{
    slot.transaction()?;
    Ok(())
}

// A read and a write differ in what they ask the transaction; one function for both would take a closure for that line.
fn check_read(slot: Slot) -> Result<(), Refusal>
    ensures { refusal_in result ≡ read_refused (run_of slot) }
{
    if slot.transaction()?.reads_full() {
        return Err(Refusal::TooMany);
    }
    Ok(())
}

fn check_write(slot: Slot) -> Result<(), Refusal>
    ensures { refusal_in result ≡ write_refused (run_of slot) }
{
    if slot.transaction()?.writes_full() {
        return Err(Refusal::TooMany);
    }
    Ok(())
}

impl<'s, 'a> Tables<'s, 'a> {
    // Tables with no commits and nothing under way.
    pub fn new(heap: Global, versions: &'s mut Versions<'a>) -> Tables<'s, 'a>
        ensures fresh { spaces versions.old ≡ 32768 → Is fresh result }
        ensures room { spaces result.versions.now ≡ spaces versions.old }
    {
        versions.clear();
        Tables {
            heap,
            versions,
            window: Window::new(heap),
            slots: [Slot::idle(); 16],
            commits: 0,
        }
    }
}

impl Tables<'_, '_> {
    // Empties the tables. Says whether there is room for all versions that an engine may have, which the lent words decide: a
    // fact and no failure.
    pub fn reset(&mut self) -> bool
        ensures room { result ≡ (spaces self.old.versions.now == 32768) }
        ensures fresh { result ≡ true → Is fresh self.new }
    {
        self.versions.clear();
        self.window = Window::new(self.heap);
        self.slots = [Slot::idle(); 16];
        self.commits = 0;
        self.versions.room() == ROOM
    }

    // What runs in the slot; a slot that there isn't is idle.
    pub fn slot(&self, slot: u32) -> Slot
        ensures { run_of result ≡ run_at slot self.now.slots }
    {
        if slot >= SLOTS {
            return Slot::idle();
        }
        self.slots[slot as usize]
    }

    // The lowest begin of those under way at Serial, or Snapshot where these count; the number of commits if there is none.
    // `snapshots` is handed on to the definition `counts`; a closure would need one more clause to name the levels it takes.
    fn floor(&self, snapshots: bool) -> u32
        ensures { result ≡ floor_by (counts snapshots) self.now.commits self.now.slots }
    {
        self.slots
            .iter()
            .fold(self.commits, |floor, slot| lower(slot, floor, snapshots))
    }

    fn busy(&self) -> u32
        ensures { result ≡ count_by (λ (s : Slot). is_going (run_of s)) self.now.slots }
    {
        self.slots.iter().filter(|slot| slot.is_busy()).count() as u32
    }

    // Whether the rules allow the call; why not, where they refuse it.
    pub fn check(&self, call: Call) -> Result<(), Refusal>
        ensures { Refuses call self.now (refusal_in result) }
    {
        if is_out_of_bounds(call) {
            return Err(Refusal::OutOfBounds);
        }
        self.check_slot(call)
    }

    // The same where all numbers are within their bounds.
    fn check_slot(&self, call: Call) -> Result<(), Refusal>
        ensures { SlotRefuses call self.now (refusal_in result) }
    {
        match call {
            Call::Begin { slot, .. } => check_begin(self.slot(slot)),
            Call::Read { slot, .. } => check_read(self.slot(slot)),
            Call::Write { slot, .. } => check_write(self.slot(slot)),
            Call::Commit { slot } => self.check_commit(slot),
            Call::Abort { slot } => check_abort(self.slot(slot)),
            Call::Sweep | Call::Sync | Call::Stop | Call::Show => Ok(()),
        }
    }

    fn check_commit(&self, slot: u32) -> Result<(), Refusal>
        ensures { SlotRefuses (Commit slot) self.now (refusal_in result) }
    {
        let t = self.slot(slot).transaction()?;
        self.verdict(&t)
    }

    // Whether the transaction may commit now; why not, where it may not.
    fn verdict(&self, t: &Transaction) -> Result<(), Refusal>
        ensures { Judges (model_of t.now) self.now (refusal_in result) }
    {
        let conflict = self.versions.conflicts(t.begin, t.own_writes());
        self.window.verdict(t, conflict)?;
        if !self.versions.room_for(t.own_writes()) {
            return Err(Refusal::NoRoom);
        }
        if self.commits == u32::MAX {
            return Err(Refusal::LastCommit);
        }
        Ok(())
    }

    // Puts this into the slot.
    fn put(&mut self, slot: u32, s: Slot)
        ensures { Puts slot (run_of s) self.old self.new }
    {
        if slot < SLOTS {
            self.slots[slot as usize] = s;
        }
    }

    // What runs in the slot ends.
    fn end(&mut self, slot: u32)
        ensures { Puts slot idle self.old self.new }
    {
        if let Ok(ended) = self.slot(slot).ended() {
            self.put(slot, ended);
        }
    }

    fn begin(&mut self, slot: u32, level: Option<Level>)
        ensures { Performs (Begin slot level) self.old self.new }
    {
        if let Some(level) = level {
            let running = Some(Transaction::started(level, self.commits));
            self.put(slot, Slot { running });
        }
    }

    fn write(&mut self, slot: u32, key: u32, value: u32)
        ensures { Performs (Write slot key value) self.old self.new }
    {
        self.add(slot, Entry { key, value });
    }

    // Adds the write.
    fn add(&mut self, slot: u32, entry: Entry)
        ensures { Puts slot (wrote entry (run_at slot self.old.slots)) self.old self.new }
    {
        if let Ok(added) = self.slot(slot).written(entry) {
            self.put(slot, added);
        }
    }

    // Forgets what the check at commit needs no more.
    fn forget(&mut self)
        ensures { Keeps self.old self.new }
    {
        let floor = self.floor(false);
        self.window.forget(floor);
    }

    fn abort(&mut self, slot: u32)
        ensures { Performs (Abort slot) self.old self.new }
    {
        self.end(slot);
        self.forget();
    }

    fn sweep(&mut self)
        ensures { Performs Sweep self.old self.new }
    {
        let floor = self.floor(true);
        self.versions.sweep(floor);
    }

    // Drops what is under way and all versions but the last of each key.
    fn restart(&mut self)
        ensures { Performs Stop self.old self.new }
    {
        let commits = self.commits;
        self.versions.sweep(commits);
        self.window.forget(commits);
        self.slots = [Slot::idle(); 16];
    }

    fn counts(&self) -> Counts
        ensures { Counted self.now result }
    {
        let versions = self.versions.count();
        Counts {
            commits: self.commits,
            versions,
            busy: self.busy(),
        }
    }

    // What the transaction finds in the range when the first `at` commits are done.
    fn found(&self, t: &Transaction, at: u32, from: u32, to: u32) -> Result<Vec<Entry>, AllocError>
        ensures { IfOk result (λ v. Finds (model_of t.now) at from to self.now v.items) }
    {
        let mut entries = Vec::new(self.heap);
        for key in from..to {
            let value = self.stands(t, at, key);
            if value > 0 {
                entries.push(Entry { key, value })?;
            }
        }
        Ok(entries)
    }

    // What stands at the key for the transaction: its own last write of it, or what the first `at` commits left.
    fn stands(&self, t: &Transaction, at: u32, key: u32) -> u32
        ensures { StandsAt (model_of t.now) at key self.now result }
    {
        match t.own(key) {
            Some(value) => value,
            None => self.versions.shown(key, at),
        }
    }

    // What a read of the transaction in the slot finds.
    fn look(&self, slot: u32, from: u32, to: u32) -> Result<Seen, Refusal>
        ensures { Looks (run_at slot self.now.slots) from to self.now result }
    {
        let Some(Slot { running: Some(t) }) = self.slots.get(slot as usize) else {
            return Err(Refusal::SlotState);
        };
        let at = t.moment(self.commits);
        let entries = self.found(t, at, from, to)?;
        Ok(Seen { at, entries })
    }

    fn read(&mut self, slot: u32, from: u32, to: u32) -> Reply
        ensures { (j : Journal) → PerformsRecording (Read slot from to) self.old j self.new j result }
    {
        let seen = self.look(slot, from, to)?;
        self.note(slot, from, to, seen.at);
        Ok(Answer::Found(seen.entries))
    }

    // Notes the read.
    fn note(&mut self, slot: u32, from: u32, to: u32, at: u32)
        ensures { Puts slot (read from to at (run_at slot self.old.slots)) self.old self.new }
    {
        if let Ok(noted) = self.slot(slot).read(from, to, at) {
            self.put(slot, noted);
        }
    }

    fn commit(&mut self, slot: u32, journal: &mut Journal) -> Reply
        ensures { PerformsRecording (Commit slot) self.old journal.old self.new journal.new result }
    {
        let t = self.slot(slot).transaction()?;
        self.commit_by(slot, &t, journal)
    }

    fn commit_by(&mut self, slot: u32, t: &Transaction, journal: &mut Journal) -> Reply
        ensures { CommitsBy slot (model_of t.now) self.old journal.old self.new journal.new result }
    {
        let number = self.commits;
        self.enter(t, journal)?;
        self.end(slot);
        self.forget();
        Ok(Answer::Committed(number))
    }

    // Enters the transaction among the commits, and its record in the journal.
    fn enter(&mut self, t: &Transaction, journal: &mut Journal) -> Result<(), Refusal>
        ensures { Enters (model_of t.now) self.old journal.old self.new journal.new result }
    {
        let number = self.commits;
        if !self.versions.room_for(t.own_writes()) {
            return Err(Refusal::NoRoom);
        }
        if number == u32::MAX {
            return Err(Refusal::LastCommit);
        }
        if !journal.has_room() {
            return Err(Refusal::NoMemory);
        }
        self.window.take_in(t, number)?;
        let Ok(()) = journal.append(number, t.own_writes()) else {
            return Err(Refusal::NoMemory);
        };
        self.versions.commit(number, t.own_writes())?;
        self.commits = number + 1;
        Ok(())
    }

    // Does a call that is not refused, where nobody wants the records: the same over a journal for one record, which is not
    // read. A type for where records go would stand on six functions for these three lines.
    pub fn perform(&mut self, call: Call) -> Reply
        ensures { PerformsOr call self.old self.new result }
    {
        let mut record = [0; LARGEST_RECORD];
        let mut journal = Journal::over(&mut record);
        self.perform_recording(call, &mut journal)
    }

    // Does a call that is not refused. The record of a commit goes to the journal.
    pub fn perform_recording(&mut self, call: Call, journal: &mut Journal) -> Reply
        ensures { PerformsRecording call self.old journal.old self.new journal.new result }
    {
        match call {
            Call::Begin { slot, level } => {
                self.begin(slot, level);
                Ok(Answer::Done)
            }
            Call::Read { slot, from, to } => self.read(slot, from, to),
            Call::Write { slot, key, value } => {
                self.write(slot, key, value);
                Ok(Answer::Done)
            }
            Call::Commit { slot } => self.commit(slot, journal),
            Call::Abort { slot } => {
                self.abort(slot);
                Ok(Answer::Done)
            }
            Call::Sweep => {
                self.sweep();
                Ok(Answer::Done)
            }
            Call::Sync => Ok(Answer::Done),
            Call::Stop => {
                self.restart();
                Ok(Answer::Done)
            }
            Call::Show => Ok(Answer::Shown(self.counts())),
        }
    }
}
