// What a store answers.
ghost use Rattle.std.specs.Prelude.{◌≡◌, true, ◌==◌};
ghost use Rattle.transactions.specs.Slots.{run_of};
ghost use Rattle.versions.specs.Store.{spaces};
ghost use Rattle.history.specs.Engine.{fresh};
ghost use Rattle.store.specs.Fits.{run_at};
ghost use Rattle.store.specs.Calls.{Is, DoesRecording, reply_of};
ghost use Rattle.store.specs.Answers.{ready_of, Promising, slotless_refusal, unready_refusal, Faulted, AnswersTo, AnswersToRecording};

use super::Store;
use crate::calls::is_out_of_bounds;
use crate::stage::Stage;
use crate::state::Tables;
use journal::{Journal, LARGEST_RECORD};
use model::{Call, Refusal, Reply, Request};
use transactions::Slot;

// Of a call whose slot can't be read only the bounds are looked at.
fn slotless(call: Call) -> Refusal
    ensures { result ≡ slotless_refusal call }
{
    if is_out_of_bounds(call) {
        Refusal::OutOfBounds
    } else {
        Refusal::BadLine
    }
}

// Why a request is refused where there is no engine.
fn unready(request: Request) -> Refusal
    ensures { result ≡ unready_refusal request }
{
    match request {
        Request::Unknown | Request::Faulty(Call::Stop) => Refusal::BadLine,
        Request::Whole(_) | Request::Faulty(_) | Request::Slotless(_) => Refusal::BadFile,
    }
}

impl Tables<'_, '_> {
    // One call of an engine.
    fn call(&mut self, call: Call, journal: &mut Journal) -> Reply
        ensures { DoesRecording call self.old journal.old self.new journal.new result }
    {
        self.check(call)?;
        self.perform_recording(call, journal)
    }

    // A call with a fault in its line is not done.
    fn faulty(&self, call: Call) -> Reply
        ensures { Faulted call self.now result }
    {
        self.check(call)?;
        Err(Refusal::BadLine)
    }
}

impl<'t, 's, 'a> Store<'t, 's, 'a> {
    // An empty engine; ready unless the words of the versions have the wrong lengths.
    pub fn over(tables: &'t mut Tables<'s, 'a>) -> Store<'t, 's, 'a>
        ensures ready { ready_of result ≡ (spaces tables.old.versions.now == 32768) }
        ensures fresh { ready_of result ≡ true → Is fresh result.tables.now }
    {
        let room = tables.reset();
        Store {
            tables,
            stage: Stage::Ready.if_room(room),
        }
    }
}

impl Store<'_, '_, '_> {
    // What runs in the slot; a slot that there isn't is idle.
    pub fn slot(&self, slot: u32) -> Slot
        ensures { run_of result ≡ run_at slot self.now.tables.now.slots }
    {
        self.tables.slot(slot)
    }

    // The answer to one request, where nobody wants the records: the same over a journal for one record, which is
    // not read.
    pub fn answer(&mut self, request: Request) -> Reply
        ensures answers { AnswersTo request self.old self.new result }
        ensures promises { Promising self.new }
    {
        let mut record = [0; LARGEST_RECORD];
        let mut journal = Journal::over(&mut record);
        self.answer_recording(request, &mut journal)
    }

    // The answer to one request. The record of a commit goes to the journal.
    pub fn answer_recording(&mut self, request: Request, journal: &mut Journal) -> Reply
        ensures answers { AnswersToRecording request self.old journal.old self.new journal.new result }
        ensures promises { Promising self.new }
    {
        if !self.stage.is_ready() {
            return Err(unready(request));
        }
        match request {
            Request::Whole(call) => self.tables.call(call, journal),
            Request::Faulty(call) => self.tables.faulty(call),
            Request::Slotless(call) => Err(slotless(call)),
            Request::Unknown => Err(Refusal::BadLine),
        }
    }
}
