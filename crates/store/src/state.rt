// The state of the engine.
ghost use Rattle.std.specs.Prelude.{◌≡◌, length};

use conflicts::Window;
use std::alloc::Global;
use transactions::Slot;
use versions::Versions;

// Within a commit the tables are no engine's, so each call says which engine they stand for, and `Store` keeps that there is
// one.
#[derive(Drop)]
pub struct Tables<'s, 'a> {
    pub heap: Global,
    pub versions: &'s mut Versions<'a>,
    pub window: Window,
    pub slots: [Slot; 16],
    pub commits: u32,
    ghost all: { length slots ≡ 16 },
}
