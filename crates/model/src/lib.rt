// What is asked of the engine and what it answers.
#![tactic(auto)]

ghost use Rattle.std.specs.Prelude.{◌≡◌};
ghost use Rattle.model.specs.Refusals.{number_of};
ghost use Rattle.model.specs.Transactions.{names, outside};
ghost use Rattle.model.specs.declared.Refusal.TheVariants.{NoMemory};

use std::alloc::AllocError;

// How many keys there are.
pub const KEYS: u32 = 4096;

// The level of a transaction: what its reads are shown and when it may commit.
#[derive(Clone, Copy, PartialEq, Eq, Debug)]
pub enum Level {
    Latest,
    Snapshot,
    Serial,
}

// A key with the value that is written to it or found at it. The value 0 means that nothing is there.
#[derive(Clone, Copy, Default, PartialEq, Eq, Debug)]
pub struct Entry {
    pub key: u32,
    pub value: u32,
}

// One call of the engine, with any numbers at all. A level that is no known one is None.
#[derive(Clone, Copy, PartialEq, Eq, Debug)]
pub enum Call {
    Begin { slot: u32, level: Option<Level> },
    Read { slot: u32, from: u32, to: u32 },
    Write { slot: u32, key: u32, value: u32 },
    Commit { slot: u32 },
    Abort { slot: u32 },
    Sweep,
    Sync,
    Stop,
    Show,
}

// What one line asks for. A line with a fault is answered by the number of the fault unless a lower one
// applies to the call, so the call is handed on with it: three of four cases have one, so this is no `Result`.
#[derive(Clone, Copy, PartialEq, Eq, Debug)]
pub enum Request {
    // a call with nothing wrong in its line
    Whole(Call),
    // a word is missing, can't be read or is too many; a part that can't be read holds a number within its bounds
    Faulty(Call),
    // the same where the slot can't be read
    Slotless(Call),
    // the first word names no call
    Unknown,
}

// Why a call is refused. Each is its number; `number_of` has them too.
#[derive(Clone, Copy, PartialEq, Eq, Debug)]
pub enum Refusal {
    // a slot, key, level or range that there isn't
    OutOfBounds = 1,
    // the slot is idle, or for a begin it is busy
    SlotState = 2,
    // a 65th read or write of one transaction
    TooMany = 3,
    // a commit that this one did not see wrote a key that it writes
    WriteConflict = 4,
    // there would be a pivot
    Pivot = 5,
    // no room for the versions
    NoRoom = 6,
    // no commit number is left
    LastCommit = 7,
    // the file can't be read
    BadFile = 8,
    // the line can't be read
    BadLine = 9,
    // no memory
    NoMemory = 99,
}

impl Refusal {
    pub fn number(self) -> u8
        ensures { result ≡ number_of self }
    {
        self as u8
    }
}

impl From<AllocError> for Refusal {
    ghost from_gives = { λ _ r. r ≡ NoMemory };

    fn from(_: AllocError) -> Refusal {
        Refusal::NoMemory
    }
}

// How many commits are done, how many versions are held, and how many slots are busy.
#[derive(Clone, Copy, PartialEq, Eq, Debug)]
pub struct Counts {
    pub commits: u32,
    pub versions: u32,
    pub busy: u32,
}

// The answer to a request that is not refused. A read answers the keys of its range with something there, in rising order.
#[derive(PartialEq, Eq, Debug, Drop)]
pub enum Answer {
    Done,
    Found(Vec<Entry>),
    Committed(u32),
    Shown(Counts),
}

// What comes of a request.
pub type Reply = Result<Answer, Refusal>;

// Whether one of the writes is of the key.
pub fn writes_key(writes: &[Entry], key: u32) -> bool
    ensures { result ≡ names key writes.now }
{
    writes.iter().any(|w| w.key == key)
}

// Whether a key of the writes is above 4,095.
pub fn outside(writes: &[Entry]) -> bool
    ensures { result ≡ outside writes.now }
{
    writes.iter().any(|w| w.key >= KEYS)
}
