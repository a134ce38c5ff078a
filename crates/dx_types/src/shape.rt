/// How a buffer is used: D3D11_USAGE.
#[derive(Clone, Copy, Debug, PartialEq, Eq)]
pub enum Usage {
    Default,
    Immutable,
    Dynamic,
    Staging,
}

/// How a view reads its buffer: by words, by structures of a stride, or by elements of words.
#[derive(Clone, Copy, Debug, PartialEq, Eq)]
pub enum Form {
    Raw,
    Structured,
    Typed,
}

/// A buffer's description: D3D11_BUFFER_DESC. `size` and `stride` are in bytes, `bind` has the bits 1
/// (constant buffer), 2 (shader resource) and 4 (unordered access), `misc` the bits 1 (raw views),
/// 2 (structured) and 4 (indirect arguments).
#[derive(Clone, Copy, Debug, PartialEq, Eq)]
pub struct Shape {
    pub size: u64,
    pub usage: Usage,
    pub bind: u32,
    pub misc: u32,
    pub stride: u32,
}

/// A view's description. `unit` is the structure's stride, or the bytes of one element; `first` and
/// `count` are in elements.
#[derive(Clone, Copy, Debug, PartialEq, Eq)]
pub struct ViewShape {
    pub res: u32,
    pub writable: bool,
    pub form: Form,
    pub unit: u32,
    pub first: u64,
    pub count: u64,
}
