// A file that is read in pieces.
ghost use Rattle.std.specs.Prelude.{◌≡◌, ◌≤◌, length};
ghost use Rattle.store.specs.Reader.{Blank, Passed, Surveyed, Taken};
ghost use Rattle.store.specs.Restored.{EndsIn};

use journal::{Flaw, Survey};
use std::alloc::{AllocError, Global};

// The bytes behind the last whole record, where they begin, and the first flaw.
#[derive(Drop)]
pub struct Reader {
    left: Vec<u8>,
    at: u64,
    flaw: Option<Flaw>,
}

impl Reader {
    // Nothing read yet.
    pub fn new(heap: Global) -> Reader
        ensures { Blank result }
    {
        Reader {
            left: Vec::new(heap),
            at: 0,
            flaw: None,
        }
    }

    // Where the last whole record ends.
    pub(crate) fn at(&self) -> u64
        ensures { result ≡ self.now.at }
    {
        self.at
    }

    pub fn flaw(&self) -> Option<Flaw>
        ensures { result ≡ self.now.flaw }
    {
        self.flaw
    }

    // The bytes behind the last whole record.
    pub(crate) fn left(&self) -> &[u8]
        ensures { result.now ≡ self.now.left.items }
    {
        &self.left
    }

    // More bytes of the file.
    pub(crate) fn take(&mut self, piece: &[u8]) -> Result<(), AllocError>
        ensures { Taken piece.now self.old self.new result }
    {
        self.left.extend_from_slice(piece)
    }

    // The first n bytes are done with.
    fn pass(&mut self, n: usize)
        requires { n ≤ length self.old.left.items }
        ensures { Passed n self.old self.new }
    {
        self.left.drain(..n);
        self.at = self.at.saturating_add(n as u64);
    }

    // Notes what was found in the bytes.
    pub(crate) fn note(&mut self, found: Result<Survey, Flaw>)
        requires { EndsIn self.old.left.items found }
        ensures { Surveyed found self.old self.new }
    {
        match found {
            Ok(survey) => self.pass(survey.bytes),
            Err(Flaw { at, why }) => {
                self.flaw = Some(Flaw {
                    at: self.at.saturating_add(at),
                    why,
                });
            }
        }
    }
}
