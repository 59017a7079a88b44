ghost use Rattle.std.specs.Prelude.{◌≡◌, map};
ghost use Rattle.model.specs.Transactions.{looks_at, looked, reads_some};
ghost use Rattle.transactions.specs.Noted.{read_of, last_of};

use super::noted::*;
use model::*;

// Whether the read, of a transaction with these writes, looks at the key.
pub fn looks_at(read: NotedRead, writes: &[Entry], key: u32) -> bool
    ensures { result ≡ looks_at key (read_of writes.now read) }
{
    let own = (read.own as usize).min(writes.len());
    read.from <= key && key < read.to && !writes_key(&writes[0..own], key)
}

// Whether one of the reads, of a transaction whose writes are `own`, looks at the key.
pub fn looks_some(reads: &[NotedRead], own: &[Entry], key: u32) -> bool
    ensures { result ≡ looked key (map (read_of own.now) reads.now) }
{
    reads.iter().any(|read| looks_at(*read, own, key))
}

// Whether one of the reads, of a transaction whose writes are `own`, looks at a key of the writes.
pub fn reads_some(reads: &[NotedRead], own: &[Entry], writes: &[Entry]) -> bool
    ensures { result ≡ reads_some (map (read_of own.now) reads.now) writes.now }
{
    writes.iter().any(|w| looks_some(reads, own, w.key))
}

// The value of the last write of the key, if there is one.
pub fn last_write(writes: &[Entry], key: u32) -> Option<u32>
    ensures { result ≡ last_of key writes.now }
{
    writes.iter().rev().find(|w| w.key == key).map(|w| w.value)
}
