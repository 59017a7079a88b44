// What is answered where there are only Serials and no file, and the serial order.
ghost use Rattle.std.specs.Prelude.{◌≡◌, ◌<◌, IfOk, vec_len, vec_capacity, OnOk};
ghost use Rattle.model.specs.Transactions.{Txn};
ghost use Rattle.transactions.specs.Transactions.{model_of};
ghost use Rattle.order.specs.Past.{past_of, as_serial};
ghost use Rattle.store.specs.Calls.{reply_of};
ghost use Rattle.serial_runs.specs.Standing.{commits, bad_line, Answered, Calls, Commits, CommitsOf, InLine};

use super::Runs;
use crate::requests::as_serial;
use model::{Answer, Call, Refusal, Reply, Request};
use order::{Past, line_of};
use transactions::Transaction;

fn is_committed(reply: &Reply) -> bool
    ensures { result ≡ commits (reply_of reply.now) }
{
    matches!(reply, Ok(Answer::Committed(_)))
}

fn is_bad_line(reply: &Reply) -> bool
    ensures { result ≡ bad_line (reply_of reply.now) }
{
    matches!(reply, Err(Refusal::BadLine))
}

impl Runs<'_, '_, '_, '_> {
    // Answers a request as the engine does, and keeps what each commit did.
    pub fn answer(&mut self, request: Request) -> Reply
        ensures { Answered request self.old self.new result }
    {
        match as_serial(request) {
            Request::Whole(call) => self.call(call),
            taken => self.ask(taken),
        }
    }

    // A call that has its place among Serials.
    fn call(&mut self, call: Call) -> Reply
        ensures { Calls call self.old self.new result }
    {
        match call {
            Call::Commit { slot } => self.commit(slot),
            _ => self.ask(Request::Whole(call)),
        }
    }

    fn commit(&mut self, slot: u32) -> Reply
        ensures { Commits slot self.old self.new result }
    {
        match self.slot(slot).running {
            Some(t) => self.commit_by(slot, &t),
            None => self.ask(Request::Whole(Call::Commit { slot })),
        }
    }

    // Commits the transaction in the slot.
    fn commit_by(&mut self, slot: u32, t: &Transaction) -> Reply
        ensures { CommitsOf slot (model_of t.now) self.old self.new result }
    {
        match self.past_of(t) {
            Ok(past) => self.commit_as(slot, past),
            Err(_) => self.commit_without(slot),
        }
    }

    // What t did, with room for it among the others.
    fn past_of(&mut self, t: &Transaction) -> Result<Past, Refusal>
        ensures past { IfOk result (λ p. past_of p ≡ as_serial (model_of t.now)) }
        ensures room { OnOk result (vec_len self.new.pasts < vec_capacity self.new.pasts) }
        ensures store { self.new.store.now ≡ self.old.store.now }
        ensures pasts { self.new.pasts.items ≡ self.old.pasts.items }
    {
        let past = Past::of(self.heap, t)?;
        self.pasts.reserve(1)?;
        Ok(past)
    }

    fn commit_as(&mut self, slot: u32, past: Past) -> Reply
        requires { vec_len self.old.pasts < vec_capacity self.old.pasts }
        ensures { CommitsOf slot (past_of past) self.old self.new result }
    {
        let reply = self.ask(Request::Whole(Call::Commit { slot }));
        if is_committed(&reply) {
            self.pasts.push_reserved(past);
        }
        reply
    }

    // The answer to a commit for which there is no memory: a lower refusal goes first.
    fn commit_without(&mut self, slot: u32) -> Reply
        ensures { (t : Txn) → CommitsOf slot t self.old self.new result }
    {
        let reply = self.ask(Request::Faulty(Call::Commit { slot }));
        if is_bad_line(&reply) {
            return Err(Refusal::NoMemory);
        }
        reply
    }

    // The serial order of the commits.
    pub fn line(&self) -> Result<Vec<u32>, Refusal>
        ensures { InLine self.now result }
    {
        line_of(self.heap, &self.pasts)
    }
}
