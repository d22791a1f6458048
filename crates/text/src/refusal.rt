ghost use Rattle.std.specs.Prelude.{◌≡◌};
ghost use Rattle.model.specs.Faults.{fault as fault_at};

use model::fault::{Cause, Fault};

// A line's refusal: the fault, and the byte of the line where its word begins.
#[derive(Clone, Copy, PartialEq, Eq, Debug)]
pub struct Refusal {
    pub fault: Fault,
    pub byte: u32,
}

impl Refusal {
    // A fault of the text, which stands at a byte of the line.
    pub(crate) fn at(cause: Cause, byte: u32) -> Refusal
        ensures { result ≡ record { fault = fault_at cause byte; byte = byte } }
    {
        Refusal {
            fault: cause.at(byte),
            byte,
        }
    }
}
