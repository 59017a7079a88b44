ghost use Rattle.std.specs.Prelude.{◌≡◌, ◌≤◌, length};
ghost use Rattle.transactions.specs.Noted.{Within};

use super::noted::*;
use model::*;

mod steps;

// A transaction under way: the first `read_count` reads and the first `write_count` writes count, in their order. Arrays with
// their counts, copied as a plain value (docs/DECISIONS.md, "Forms").
#[derive(Clone, Copy)]
pub struct Transaction {
    pub level: Level,
    pub begin: u32,
    reads: [NotedRead; 64],
    read_count: usize,
    writes: [Entry; 64],
    write_count: usize,
    ghost reads_long: { length reads ≡ 64 },
    ghost writes_long: { length writes ≡ 64 },
    ghost few_reads: { read_count ≤ 64 },
    ghost few_writes: { write_count ≤ 64 },
    ghost own_within: { Within write_count read_count reads },
}
