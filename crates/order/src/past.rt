ghost use Rattle.std.specs.Prelude.{◌≡◌};
ghost use Rattle.model.specs.Transactions.{both_write};
ghost use Rattle.transactions.specs.Transactions.{model_of};
ghost use Rattle.order.specs.Order.{stands_before};
ghost use Rattle.order.specs.Past.{commit_of, PastKept};

use model::{writes_key, *};
use std::alloc::Global;
use transactions::*;

// What is kept of a committed Serial: how many commits were done when it began, and its reads and writes in their order.
// Its number is its place among those that are kept.
#[derive(Drop)]
pub struct Past {
    pub begin: u32,
    pub reads: Vec<NotedRead>,
    pub writes: Vec<Entry>,
}

// Whether some key is written by both.
fn both_write(a: &[Entry], b: &[Entry]) -> bool
    ensures { result ≡ both_write a.now b.now }
{
    a.iter().any(|w| writes_key(b, w.key))
}

impl Past {
    // What t did, as a Serial.
    pub fn of(heap: Global, t: &Transaction) -> Result<Past, Refusal>
        ensures { PastKept (model_of t.now) result }
    {
        Ok(Past {
            begin: t.begin,
            reads: Vec::from_slice(heap, t.own_reads())?,
            writes: Vec::from_slice(heap, t.own_writes())?,
        })
    }

    // Whether it, with number i, has to stand before the other, with number j.
    pub fn stands_before(&self, i: usize, other: &Past, j: usize) -> bool
        ensures { result ≡ stands_before (commit_of self.now i) (commit_of other.now j) }
    {
        i != j
            && (i < j && both_write(&other.writes, &self.writes)
                || i < other.begin as usize && reads_some(&other.reads, &other.writes, &self.writes)
                || self.begin as usize <= j && reads_some(&self.reads, &self.writes, &other.writes))
    }
}
