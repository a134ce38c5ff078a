use crate::BlockNo;

/// Bytes from a place on: `len` of them from byte `start`.
#[derive(Clone, Copy, Debug, PartialEq, Eq)]
pub struct Span {
    pub start: u64,
    pub len: u64,
}

/// The bytes of a block from byte `from` to just before byte `to`.
#[derive(Clone, Copy, Debug, PartialEq, Eq)]
pub struct Range {
    pub block: BlockNo,
    pub from: u64,
    pub to: u64,
}

/// The bytes of a resource from byte `from` to just before byte `to`.
#[derive(Clone, Copy, Debug, PartialEq, Eq)]
pub struct ResRange {
    pub res: u32,
    pub from: u64,
    pub to: u64,
}
