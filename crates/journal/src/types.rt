// What a writer and a reader of records answer.

use std::fmt;

// The record at the front of some bytes: it has so many bytes, and so many writes.
#[derive(Clone, Copy, PartialEq, Eq, Debug)]
pub struct Record {
    pub bytes: usize,
    pub count: usize,
}

// Why a record is bad. Where several apply it is the first of these.
#[derive(Clone, Copy, PartialEq, Eq, Debug)]
pub enum Fault {
    // its first byte is not 1
    UnknownKind,
    // its number is not the one that it must have
    WrongNumber,
    // it has more than 64 writes
    TooManyWrites,
    // a key is above 4,095
    KeyOutOfBounds,
}

impl fmt::Display for Fault {
    ghost use Rattle.std.specs.Prelude.{Some};
    ghost use Rattle.journal.specs.Words.{words};

    ghost output = { λ why. Some (words why) };

    fn fmt<W: fmt::Write>(&self, f: &mut fmt::Formatter<W>) -> fmt::Result {
        match self {
            Fault::UnknownKind => f.write_str("its first byte is not 1"),
            Fault::WrongNumber => f.write_str("its number is not the next"),
            Fault::TooManyWrites => f.write_str("it has more than 64 writes"),
            Fault::KeyOutOfBounds => f.write_str("it has a key above 4095"),
        }
    }
}

// Why a commit gets no record. Where several apply it is the first of these.
#[derive(Clone, Copy, PartialEq, Eq, Debug)]
pub enum Unfit {
    // it has more than 64 writes
    TooManyWrites,
    // the bytes have no room for it
    NoRoom,
    // a key is above 4,095
    KeyOutOfBounds,
}

// The whole records of some bytes have so many bytes in all; what follows is cut short. `next` is the number after the
// last.
#[derive(Clone, Copy, PartialEq, Eq, Debug)]
pub struct Survey {
    pub bytes: usize,
    pub next: u32,
}

// The record that begins at this byte is bad.
#[derive(Clone, Copy, PartialEq, Eq, Debug)]
pub struct Flaw {
    pub at: u64,
    pub why: Fault,
}
