// The engine with what is kept of each commit.
ghost use Rattle.std.specs.Prelude.{◌≡◌, true, []};
ghost use Rattle.transactions.specs.Slots.{run_of};
ghost use Rattle.history.specs.Engine.{fresh};
ghost use Rattle.store.specs.Fits.{run_at};
ghost use Rattle.store.specs.Calls.{Is};
ghost use Rattle.store.specs.Answers.{ready_of, AnswersTo};
ghost use Rattle.serial_runs.specs.Standing.{Stands};

use model::{Reply, Request};
use order::Past;
use std::alloc::Global;
use store::Store;
use transactions::Slot;

mod answers;

// Of the commits of the store's engine the n-th past is what the n-th did.
#[derive(Drop)]
pub struct Runs<'r, 't, 's, 'a> {
    heap: Global,
    store: &'r mut Store<'t, 's, 'a>,
    pasts: Vec<Past>,
}

impl<'r, 't, 's, 'a> Runs<'r, 't, 's, 'a> {
    // Nothing is kept yet, for an engine where nothing has happened.
    pub fn new(heap: Global, store: &'r mut Store<'t, 's, 'a>) -> Runs<'r, 't, 's, 'a>
        ensures { ready_of store.old ≡ true → Is fresh store.old.tables.now → Stands [] result }
    {
        Runs {
            heap,
            store,
            pasts: Vec::new(heap),
        }
    }
}

impl Runs<'_, '_, '_, '_> {
    // What runs in the slot.
    fn slot(&self, slot: u32) -> Slot
        ensures { run_of result ≡ run_at slot self.now.store.now.tables.now.slots }
    {
        self.store.slot(slot)
    }

    // Asks the engine.
    fn ask(&mut self, request: Request) -> Reply
        ensures answers { AnswersTo request self.old.store.now self.new.store.now result }
        ensures pasts { self.new.pasts ≡ self.old.pasts }
    {
        self.store.answer(request)
    }
}
