// The line that is being read, gathered from chunks of the input.
ghost use Rattle.std.specs.Prelude.{◌≡◌, ℕ, ◌≤◌, List, [], ◌++◌, length, ◌==◌, MatchOption};
ghost use Rattle.std.specs.List.{position};
ghost use Rattle.lines.specs.Requests.{missing};
ghost use Rattle.lines.specs.Held.{Holds, request_of, last_of, line_end, first_line, Ends, Took, CutAnywhere};

use crate::requests::parse;
use arrayvec::ArrayVec;
use model::Request;
use std::alloc::AllocError;

// The most bytes of a line, its line feed not counted. Of a longer line only that is known.
pub const LONGEST: usize = 1024;

// Of a line that is too long only that is kept, so each clause names the line so far.
#[derive(Drop)]
pub struct LineBuffer {
    // the line so far; none where it is too long
    line: Option<ArrayVec<u8, LONGEST>>,
}

// Where the first line feed stands.
fn line_feed(s: &[u8]) -> Option<usize>
    ensures { result ≡ position (λ b. b == 10) s.now }
{
    s.iter().position(|b| *b == b'\n')
}

impl LineBuffer {
    pub fn new() -> Self
        ensures { Holds result [] }
    {
        LineBuffer {
            line: Some(ArrayVec::new()),
        }
    }

    // Takes the requests of all lines that end in the chunk. The rest of the chunk is kept for the next.
    pub fn take(&mut self, chunk: &[u8], out: &mut Vec<Request>) -> Result<(), AllocError>
        ensures took { (t : List ℕ) → Holds self.old t → Took t chunk.now out.old.items out.new.items self.new result }
        ensures cut { CutAnywhere }
    {
        let mut chunk = chunk;
        while let Some((request, rest)) = self.next(chunk) {
            out.push(request)?;
            chunk = rest;
        }
        Ok(())
    }

    // The request of the first line that ends in the chunk, and what stands behind it. Where no line ends, the chunk is kept.
    fn next<'c>(&mut self, chunk: &'c [u8]) -> Option<(Request, &'c [u8])>
        ensures place { MatchOption result (length chunk.now ≤ line_end chunk.now) (λ x. Ends chunk.now x.1.now) }
        ensures taken { (t : List ℕ) → Holds self.old t → MatchOption result (Holds self.new (t ++ chunk.now)) (λ x. (x.0 ≡ request_of (t ++ first_line chunk.now)) × Holds self.new []) }
    {
        match line_feed(chunk) {
            Some(end) => Some((self.ended(&chunk[..end]), &chunk[end + 1..])),
            None => {
                self.keep(chunk);
                None
            }
        }
    }

    // The request of the line that ends with these bytes. One that is whole in them is read there.
    fn ended(&mut self, bytes: &[u8]) -> Request
        ensures request { (t : List ℕ) → Holds self.old t → result ≡ request_of (t ++ bytes.now) }
        ensures after { (t : List ℕ) → Holds self.old t → Holds self.new [] }
    {
        if bytes.len() <= LONGEST && self.is_empty() {
            return parse(bytes);
        }
        self.keep(bytes);
        let request = self.request();
        self.clear();
        request
    }

    // The request of the last line, where it has no line feed; none if it is empty.
    pub fn last(&self) -> Option<Request>
        ensures { (t : List ℕ) → Holds self.now t → result ≡ last_of t }
    {
        if self.is_empty() {
            return None;
        }
        Some(self.request())
    }

    fn is_empty(&self) -> bool
        ensures { (t : List ℕ) → Holds self.now t → result ≡ missing t }
    {
        self.line.as_ref().is_some_and(|line| line.is_empty())
    }

    // What the line asks for.
    fn request(&self) -> Request
        ensures { (t : List ℕ) → Holds self.now t → result ≡ request_of t }
    {
        match &self.line {
            Some(line) => parse(line.as_slice()),
            None => Request::Unknown,
        }
    }

    // Puts the bytes behind the line so far.
    fn keep(&mut self, bytes: &[u8])
        ensures { (t : List ℕ) → Holds self.old t → Holds self.new (t ++ bytes.now) }
    {
        if let Some(line) = &mut self.line {
            if line.try_extend_from_slice(bytes).is_err() {
                self.line = None;
            }
        }
    }

    fn clear(&mut self)
        ensures { Holds self.new [] }
    {
        match &mut self.line {
            Some(line) => line.clear(),
            None => self.line = Some(ArrayVec::new()),
        }
    }
}
