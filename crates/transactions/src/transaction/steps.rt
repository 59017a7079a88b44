ghost use Rattle.std.specs.Prelude.{◌≡◌, length, nat_le};
ghost use Rattle.model.specs.Transactions.{began, moment};
ghost use Rattle.transactions.specs.Noted.{Leaves};
ghost use Rattle.transactions.specs.Transactions.{noted_of, model_of, ReadNoted, WriteAdded};

use super::*;
use crate::looks::*;
use crate::noted::*;
use model::*;

impl Transaction {
    // A transaction that begins when this many commits are done.
    pub fn started(level: Level, begin: u32) -> Transaction
        ensures { model_of result ≡ began level begin }
    {
        Transaction {
            level,
            begin,
            reads: [NotedRead::default(); 64],
            read_count: 0,
            writes: [Entry::default(); 64],
            write_count: 0,
        }
    }

    // With one read more, by the ends as a call and a noted read have them; where it has 64, the transaction as it was.
    pub fn read_noted(mut self, from: u32, to: u32, at: u32) -> Result<Transaction, Transaction>
        ensures { ReadNoted self from to at result }
    {
        if self.reads_full() {
            return Err(self);
        }
        self.reads[self.read_count] = NotedRead {
            from,
            to,
            at,
            own: self.write_count as u32,
        };
        self.read_count += 1;
        Ok(self)
    }

    // With one write more; where it has 64, the transaction as it was.
    pub fn write_added(mut self, e: Entry) -> Result<Transaction, Transaction>
        ensures { WriteAdded self e result }
    {
        if self.writes_full() {
            return Err(self);
        }
        self.writes[self.write_count] = e;
        self.write_count += 1;
        Ok(self)
    }

    // Whether one read more would be refused.
    pub fn reads_full(&self) -> bool
        ensures { result ≡ nat_le 64 (length (model_of self.now).reads) }
    {
        self.read_count >= 64
    }

    // Whether one write more would be refused.
    pub fn writes_full(&self) -> bool
        ensures { result ≡ nat_le 64 (length (model_of self.now).writes) }
    {
        self.write_count >= 64
    }

    // How many commits a read sees when this many are done.
    pub fn moment(&self, done: u32) -> u32
        ensures { result ≡ moment (model_of self.now) done }
    {
        match self.level {
            Level::Latest => done,
            Level::Snapshot | Level::Serial => self.begin,
        }
    }

    // Its reads, in their order.
    pub fn own_reads(&self) -> &[NotedRead]
        ensures { result.now ≡ noted_of self.now }
    {
        &self.reads[..self.read_count]
    }

    // Its writes, in their order.
    pub fn own_writes(&self) -> &[Entry]
        ensures { result.now ≡ (model_of self.now).writes }
    {
        &self.writes[..self.write_count]
    }

    // Its own last write of the key, if it has written it.
    pub fn own(&self, key: u32) -> Option<u32>
        ensures { Leaves key (model_of self.now).writes result }
    {
        last_write(self.own_writes(), key)
    }
}
