/// The number of a call in its log, from 1.
pub type CallNo = u32;

/// The number of a chunk of a run, from 1.
pub type ChunkNo = u64;

/// The number of a block of device memory.
pub type BlockNo = u32;
