ghost use Rattle.std.specs.Prelude.{◌≡◌, Some};
ghost use Rattle.transactions.specs.Slots.{idle, run_of, begun, begin_refused, read, read_refused, wrote, write_refused, end_refused, is_going, Turns, Runs};

use super::transaction::*;
use model::*;

// What a slot holds: a transaction under way, or nothing.
#[derive(Clone, Copy)]
pub struct Slot {
    pub running: Option<Transaction>,
}

// What a transaction does is a method by value, which answers the slot after it, or why it is refused.
impl Slot {
    // A slot in which nothing runs.
    pub fn idle() -> Slot
        ensures { run_of result ≡ idle }
    {
        Slot { running: None }
    }

    fn active(t: Transaction) -> Slot
        ensures { result.running ≡ Some t }
    {
        Slot { running: Some(t) }
    }

    // What runs in it, where something does.
    pub fn transaction(self) -> Result<Transaction, Refusal>
        ensures { Runs self result }
    {
        self.running.ok_or(Refusal::SlotState)
    }

    // A transaction begins when this many commits are done.
    pub fn begun(self, level: Level, done: u32) -> Result<Slot, Refusal>
        ensures { Turns (begun level done) begin_refused self result }
    {
        if self.is_busy() {
            return Err(Refusal::SlotState);
        }
        Ok(Slot::active(Transaction::started(level, done)))
    }

    // A read is noted.
    pub fn read(self, from: u32, to: u32, at: u32) -> Result<Slot, Refusal>
        ensures { Turns (read from to at) read_refused self result }
    {
        let noted = self.transaction()?.read_noted(from, to, at);
        Ok(Slot::active(noted.map_err(|_| Refusal::TooMany)?))
    }

    // A write is added.
    pub fn written(self, e: Entry) -> Result<Slot, Refusal>
        ensures { Turns (wrote e) write_refused self result }
    {
        let added = self.transaction()?.write_added(e);
        Ok(Slot::active(added.map_err(|_| Refusal::TooMany)?))
    }

    // Whether a transaction runs in it.
    pub fn is_busy(&self) -> bool
        ensures { result ≡ is_going (run_of self.now) }
    {
        self.running.is_some()
    }

    // The transaction ends.
    pub fn ended(self) -> Result<Slot, Refusal>
        ensures { Turns (λ _. idle) end_refused self result }
    {
        self.transaction()?;
        Ok(Slot::idle())
    }
}
