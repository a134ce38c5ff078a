// The sections of a module.

/// The sections of a module, in their order. That of the types has the constants and the module's variables too.
#[derive(Clone, Copy)]
pub enum Section {
    Capabilities,
    Model,
    Entry,
    Modes,
    Decorations,
    Types,
    Body,
}
