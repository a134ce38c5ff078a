// What the emitter knows of a shader before it emits code.

ghost use Rattle.std.specs.Prelude.{◌+◌, ◌<◌, ◌^◌, length};

use crate::numbers::Numbers;
use std::alloc::Global;

/// The numbers of the module and how many variables the function has; and the memory that pieces are put in.
#[derive(Drop)]
pub struct Plan {
    pub alloc: Global,
    pub numbers: Numbers,
    pub variables: u32,
    ghost room: { 61 + length numbers + variables < 2 ^ 31 },
}
