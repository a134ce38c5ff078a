// What is wrong with a module's words.

/// The first bad word, counted from 0 with the header, and the first rule in the order of the kinds that it breaks.
#[derive(Clone, Copy, PartialEq, Eq, Debug)]
pub struct ModuleFault {
    pub word: u32,
    pub kind: ModuleKind,
}

/// The rules that a module's words may break.
#[derive(Clone, Copy, PartialEq, Eq, Debug)]
pub enum ModuleKind {
    Header,
    Count,
    Opcode,
    Order,
    Ident,
    Shape,
    Flow,
}
