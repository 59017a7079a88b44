// The layout of a record: a head of the kind, the number and how many writes, and then for each write its key and value.

pub const KIND: u8 = 1;
// bytes of the head
pub const HEAD: usize = 6;
// bytes of a write
pub const WRITE: usize = 6;

pub const MOST_WRITES: usize = 64;
// bytes of a record with as many writes as there may be
pub const LARGEST_RECORD: usize = 390;
