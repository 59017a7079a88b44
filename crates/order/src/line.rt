ghost use Rattle.std.specs.Prelude.{map};
ghost use Rattle.order.specs.Past.{past_of, LineTold, SerialTold};

use super::lineup::*;
use super::past::*;
use model::*;
use std::alloc::Global;

// The line of the commits: their numbers, taking each time the lowest that none of the others left has to stand before. It
// ends early where each of those left has to wait for another, which commits that the rules allow never have to. There
// is no memory for 2^32 commits and more.
pub fn line_of(heap: Global, pasts: &[Past]) -> Result<Vec<u32>, Refusal>
    ensures line { LineTold (map past_of pasts.now) result }
    ensures serial { SerialTold (map past_of pasts.now) result }
{
    if pasts.len() >= 0x1_0000_0000 {
        return Err(Refusal::NoMemory);
    }
    let mut lineup = Lineup::new(heap, pasts)?;
    let _ = lineup.take(pasts.len());
    Ok(lineup.order)
}
