// Text that is written at its end.
ghost use Rattle.std.specs.Prelude.{◌≡◌, ℕ, List, ◌++◌, string_bytes, OnErr, OnOk};

use std::alloc::AllocError;

pub trait Text {
    // What stands in it.
    ghost bytes: { Self → List ℕ };

    // Writes the text behind what stands there; where there is no memory, nothing.
    fn append(&mut self, text: &str) -> Result<(), AllocError>
        ensures text { OnOk result (bytes self.new ≡ bytes self.old ++ text.now) }
        ensures unchanged { OnErr result (bytes self.new ≡ bytes self.old) };
}

impl Text for Vec<u8> {
    ghost bytes = { λ v. v.items };

    fn append(&mut self, text: &str) -> Result<(), AllocError> {
        self.extend_from_slice(text.as_bytes())
    }
}

impl Text for String {
    ghost bytes = { string_bytes };

    fn append(&mut self, text: &str) -> Result<(), AllocError> {
        self.push_str(text)
    }
}
