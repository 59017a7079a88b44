// The text of an order.
ghost use Rattle.std.specs.Prelude.{◌≡◌, ◌++◌, OnOk};
ghost use Rattle.serial_runs.specs.Text.{line_text};

use lines::{Text, say_number};
use std::alloc::AllocError;

// Writes the numbers, a space apart, and the end of the line behind what stands in `out`. The entries of an answer go out by
// the same few lines: shared, they would need a closure with a clause on what it writes.
pub fn say_order<T: Text>(out: &mut T, order: &[u32]) -> Result<(), AllocError>
    ensures { OnOk result (T.bytes out.new ≡ T.bytes out.old ++ line_text order.now) }
{
    let mut separator = "";
    for n in order {
        out.append(separator)?;
        say_number(out, *n)?;
        separator = " ";
    }
    out.append("\n")
}
