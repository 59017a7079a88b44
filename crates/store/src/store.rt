// The engine as a program holds it.
ghost use Rattle.std.specs.Prelude.{◌≡◌, true};
ghost use Rattle.store.specs.Calls.{Led};
ghost use Rattle.store.specs.Restored.{Filled};
ghost use Rattle.store.specs.Stages.{is_ready, is_loading};

use crate::stage::Stage;
use crate::state::Tables;

mod answers;
mod opening;

// Where it is ready, some events from an empty engine on led to its tables. While a file is read, they have the commits of
// its records. Else it has no engine: its file can't be read, or its words have the wrong lengths.
#[derive(Drop)]
pub struct Store<'t, 's, 'a> {
    tables: &'t mut Tables<'s, 'a>,
    stage: Stage,
    ghost led: { (is_ready stage ≡ true → ∥ Led tables.now ∥₁) },
    ghost filled: { (is_loading stage ≡ true → ∥ Filled tables.now ∥₁) },
}
