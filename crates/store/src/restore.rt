// Fills the tables from the records of a file.
ghost use Rattle.std.specs.Prelude.{◌≡◌, ◌≤◌, length, drop};
ghost use Rattle.journal.specs.Parsing.{parsed, outlined, laid, RecordIn};
ghost use Rattle.journal.specs.Files.{flawed};
ghost use Rattle.store.specs.Restored.{MakesRoom, Restores, Replays, EndsIn, Settles};

use crate::state::Tables;
use journal::{Fault, Flaw, Record, Survey, decode};
use model::Entry;

// The record at this byte, as `decode` has it.
fn record_at(
    bytes: &[u8],
    at: usize,
    number: u32,
    writes: &mut [Entry; 64],
) -> Result<Option<Record>, Flaw>
    requires { at ≤ length bytes.now }
    ensures answer { result ≡ flawed at (outlined (parsed number (drop at bytes.now))) }
    ensures writes { writes.new ≡ laid (parsed number (drop at bytes.now)) writes.old }
    ensures whole { RecordIn number (drop at bytes.now) (parsed number (drop at bytes.now)) }
{
    decode(&bytes[at..], number, writes).map_err(|why| Flaw { at: at as u64, why })
}

impl Tables<'_, '_> {
    // Sweeps where there is no room for the versions of the writes.
    fn make_room(&mut self, writes: &[Entry])
        ensures { MakesRoom writes.now self.old self.new }
    {
        if self.versions.room_for(writes) {
            return;
        }
        self.versions.sweep(self.commits);
    }

    // The commit that comes next.
    fn restore(&mut self, writes: &[Entry])
        ensures { Restores writes.now self.old self.new }
    {
        self.make_room(writes);
        let number = self.commits;
        if number == u32::MAX {
            return;
        }
        if let Ok(()) = self.versions.commit(number, writes) {
            self.commits = number + 1;
        }
    }

    // Leaves the last version of each key, as an engine begins.
    pub(crate) fn settle(&mut self)
        ensures { Settles self.old self.new }
    {
        let floor = self.commits;
        self.versions.sweep(floor);
    }

    // All records in bytes, behind the commits that the tables have.
    pub(crate) fn replay(&mut self, bytes: &[u8]) -> Result<Survey, Flaw>
        ensures commits { Replays bytes.now self.old self.new result }
        ensures inside { EndsIn bytes.now result }
    {
        let mut writes = [Entry::default(); 64];
        // records differ in size, so the place is counted; one loop for this and for the survey of a journal would take a
        // closure, and a clause on what that does to the tables
        let mut at = 0;
        loop {
            let next = self.commits;
            let Some(found) = record_at(bytes, at, next, &mut writes)? else {
                break;
            };
            if next == u32::MAX {
                return Err(Flaw {
                    at: at as u64,
                    why: Fault::WrongNumber,
                });
            }
            self.restore(&writes[..found.count]);
            at += found.bytes;
        }
        Ok(Survey {
            bytes: at,
            next: self.commits,
        })
    }
}
