ghost use Rattle.std.specs.Prelude.{◌+◌, ◌^◌, ◌<◌, ◌≤◌, length, vec_len, vec_capacity};
ghost use Rattle.order.specs.Taking.{gone_of, left_of, Compared, Front};

use super::past::*;

mod steps;

// A line in the making: fewer than 2^32 commits, how far each that is left has been compared with the others, in 32 bits
// since every look at the line goes through them, and the order so far, with room for those that are left.
#[derive(Drop)]
pub struct Lineup<'p> {
    pasts: &'p [Past],
    cursors: Vec<Option<u32>>,
    // all that are numbered below it are taken, so nobody looks at them again
    first: usize,
    pub order: Vec<u32>,
    ghost few: { length pasts.now < 2 ^ 32 },
    ghost compared: { Compared pasts.now cursors.items },
    ghost front: { Front first cursors.items },
    ghost room: { vec_len order + length (left_of (gone_of cursors.items)) ≤ vec_capacity order },
}
