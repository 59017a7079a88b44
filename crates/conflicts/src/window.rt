ghost use Rattle.std.specs.Prelude.{◌≡◌, true, map};
ghost use Rattle.conflicts.specs.Rising.{number_of, Rise};

use model::*;
use transactions::*;

mod checks;
mod marks;

// A committed Serial: what it read and wrote, the lowest number of a commit that it passes, and the lowest number
// of one that passes it.
#[derive(Drop)]
pub struct Committed {
    number: u32,
    reads: Vec<NotedRead>,
    writes: Vec<Entry>,
    passes: Option<u32>,
    passed_by: Option<u32>,
}

// The committed Serials numbered from a floor on, in the order in which they came, and whether their numbers are known
// to rise: a caller may hand in any number.
#[derive(Drop)]
pub struct Window {
    all: Vec<Committed>,
    rising: bool,
    ghost rises: { (rising ≡ true → Rise (map number_of all.items)) },
}
