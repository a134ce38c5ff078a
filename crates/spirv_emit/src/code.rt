// The code of a module, put together instruction by instruction.

use spirv_words::Builder;

/// The words of the instructions so far, and the next free id.
#[derive(Drop)]
pub struct Code {
    pub words: Builder,
    pub next: u32,
}
