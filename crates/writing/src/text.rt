// Values behind a text.
ghost use Rattle.std.specs.Prelude.{◌≡◌, ◌++◌, IfSome, string_bytes, OnOk};

use std::alloc::AllocError;
use std::fmt::Display;

// Writes a value behind the text.
pub fn put<D: Display + Drop>(out: &mut String, value: D) -> Result<(), AllocError>
    ensures { OnOk result (IfSome (D.Display.output value) (λ bs. string_bytes out.new ≡ string_bytes out.old ++ bs)) }
{
    out.write(value)
}
