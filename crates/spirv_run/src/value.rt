// The values of a run.

/// What a pointer points to.
#[derive(Clone, Copy)]
pub enum Pointer {
    /// A variable of the function, by its id.
    Variable(u32),
    /// The whole buffer of a binding.
    Buffer(u32),
    /// A word of a binding's buffer.
    Word { binding: u32, place: u32 },
    /// The push constants.
    Lengths,
    /// The length of a binding's slot.
    Length(u32),
    /// A built-in, by its number.
    Input(u32),
}

/// What an id or a variable has.
#[derive(Clone, Copy)]
pub enum Value {
    /// What a variable has that was given nothing.
    Nothing,
    Word(u32),
    Truth(bool),
    Vector(u32, u32, u32),
    /// The low and the high half of a product.
    Halves(u32, u32),
    At(Pointer),
}
