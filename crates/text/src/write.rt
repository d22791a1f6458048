// What answers are made of: bytes put behind those that are there.
ghost use Rattle.std.specs.Prelude.{[], ◌∷◌, decimal};
ghost use Rattle.text.specs.Writing.{Writes};

use itoa::Buffer;
use std::alloc::AllocError;

// The functions of this file promise in one way what `push` and `extend_from_slice` promise in two,
// so that a text of many pieces adds up.
pub fn write_byte(out: &mut Vec<u8>, b: u8) -> Result<(), AllocError>
    ensures { Writes result out.old (b ∷ []) out.new }
{
    out.push(b)?;
    Ok(())
}

pub fn write_text(out: &mut Vec<u8>, text: &[u8]) -> Result<(), AllocError>
    ensures { Writes result out.old text.now out.new }
{
    out.extend_from_slice(text)
}

// The digits of a number. `write!` would say nothing of when it fails.
pub fn write_number(out: &mut Vec<u8>, n: u64) -> Result<(), AllocError>
    ensures { Writes result out.old (decimal n) out.new }
{
    write_text(out, Buffer::new().format(n).as_bytes())
}
