// What a line asks for.
ghost use Rattle.std.specs.Prelude.{◌≡◌, is_some};
ghost use Rattle.lines.specs.Numbers.{numeral};
ghost use Rattle.lines.specs.Requests.{level_of, part, judged, plain, slot_only, begin_of, read_of, write_of, asked, parsed};
ghost use Rattle.lines.specs.Laws.{Split, Return, SameWords, Number, NoCall, RoundTrip, OnlyWhole};

use crate::number::*;
use crate::words::*;
use model::{Call, Level, Request};

// A missing level counts as one that there is; its line is faulty all the same.
fn level(word: &[u8]) -> Option<Level>
    ensures { result ≡ level_of word.now }
{
    match word {
        b"" => Some(Level::Latest),
        b"latest" => Some(Level::Latest),
        b"snapshot" => Some(Level::Snapshot),
        b"serial" => Some(Level::Serial),
        _ => None,
    }
}

impl Words<'_> {
    // A call with nothing behind its name.
    fn bare(self, call: Call) -> Request
        ensures { result ≡ plain call self.entry.first.now }
    {
        if self.first.is_empty() {
            Request::Whole(call)
        } else {
            Request::Faulty(call)
        }
    }

    // The call at the slot that the line names, by whether the rest of the line is whole.
    fn at_slot<F: Fn(u32) -> Call>(self, call: F, whole: bool) -> Request
        requires { F.IsAlwaysCallable call }
        ensures { (c : Call) × F.post call (part self.entry.first.now) c × (result ≡ judged c (is_some (numeral self.entry.first.now)) whole) }
    {
        let slot = number(self.first);
        let call = call(narrow(slot, 0));
        match slot {
            None => Request::Slotless(call),
            Some(_) if whole => Request::Whole(call),
            Some(_) => Request::Faulty(call),
        }
    }

    fn begin(self) -> Request
        ensures { result ≡ begin_of self.entry.first.now self.entry.second.now self.entry.third.now }
    {
        let level = level(self.second);
        let whole = !self.second.is_empty() && self.third.is_empty();
        self.at_slot(|slot| Call::Begin { slot, level }, whole)
    }

    fn read(self) -> Request
        ensures { result ≡ read_of self.entry.first.now self.entry.second.now self.entry.third.now self.entry.fourth.now }
    {
        let start = number(self.second);
        let end = number(self.third);
        let from = narrow(start, 0);
        let to = narrow(end, from as u64 + 1);
        let whole = start.is_some() && end.is_some() && self.fourth.is_empty();
        self.at_slot(|slot| Call::Read { slot, from, to }, whole)
    }

    fn write(self) -> Request
        ensures { result ≡ write_of self.entry.first.now self.entry.second.now self.entry.third.now self.entry.fourth.now }
    {
        let key = number(self.second);
        let value = number(self.third);
        let whole = key.is_some() && fits_word(value) && self.fourth.is_empty();
        let key = narrow(key, 0);
        let value = narrow(value, 0);
        self.at_slot(|slot| Call::Write { slot, key, value }, whole)
    }

    // By the first word of the line.
    fn request(self) -> Request
        ensures { result ≡ asked self.entry.name.now self.entry.first.now self.entry.second.now self.entry.third.now self.entry.fourth.now }
    {
        match self.name {
            b"begin" => self.begin(),
            b"read" => self.read(),
            b"write" => self.write(),
            b"commit" => self.at_slot(|slot| Call::Commit { slot }, self.second.is_empty()),
            b"abort" => self.at_slot(|slot| Call::Abort { slot }, self.second.is_empty()),
            b"sweep" => self.bare(Call::Sweep),
            b"sync" => self.bare(Call::Sync),
            b"stop" => self.bare(Call::Stop),
            b"show" => self.bare(Call::Show),
            _ => Request::Unknown,
        }
    }
}

// What a line asks for, given without its line feed.
pub fn parse(line: &[u8]) -> Request
    ensures value { result ≡ parsed line.now }
    ensures split { Split }
    ensures unreturned { Return }
    ensures words { SameWords }
    ensures number { Number }
    ensures unknown { NoCall }
    ensures trip { RoundTrip }
    ensures whole { OnlyWhole }
{
    Words::of(without_return(line)).request()
}
