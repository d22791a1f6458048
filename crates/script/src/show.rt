// How a grade is written in an answer.
ghost use Rattle.std.specs.Prelude.{ℕ, List};
ghost use Rattle.text.specs.Writing.{Writes};
ghost use Rattle.script.specs.Answers.{strength_text, bytes_text, depth_text};

use model::record::Strength;
use schemes::depth::Depth;
use std::alloc::AllocError;
use text::write::{write_byte, write_number};

// Not `Display`: of `write!` into a `Vec` no clause says that it fails only for want of room.
pub trait Shown: Copy {
    ghost text: { Self → List ℕ };

    fn write(self, out: &mut Vec<u8>) -> Result<(), AllocError>
        ensures { Writes result out.old (text self) out.new };
}

impl Shown for Strength {
    ghost text = { strength_text };

    fn write(self, out: &mut Vec<u8>) -> Result<(), AllocError> {
        write_number(out, u64::from(u32::from(self)))
    }
}

impl Shown for u32 {
    ghost text = { bytes_text };

    fn write(self, out: &mut Vec<u8>) -> Result<(), AllocError> {
        write_number(out, u64::from(self))
    }
}

impl Shown for Depth {
    ghost text = { depth_text };

    fn write(self, out: &mut Vec<u8>) -> Result<(), AllocError> {
        write_number(out, u64::from(self.depth))?;
        write_byte(out, b'.')?;
        write_number(out, u64::from(self.tie))
    }
}
