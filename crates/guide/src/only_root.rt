// A heap of one cell, held by one root.
ghost use Rattle.std.specs.Prelude.{◌≤◌};

pub mod answers;

#[derive(Clone, Copy)]
pub struct OnlyRoot {
    size: u32,
    ghost some: { 1 ≤ size },
    ghost fits: { size ≤ 1048576 },
}
