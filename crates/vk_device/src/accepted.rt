//! A batch that a device accepted.

use dx_types::{BlockNo, CallNo, ChunkNo, Range};
use vk_types::{HostPart, Placed};

/// What a device keeps of a batch until it is completed, beside its operations: how many these are, the numbers of its pages, what
/// the host wrote for it, and the staging buffers that it uses.
#[derive(Drop)]
pub struct Accepted {
    pub number: ChunkNo,
    pub upto: CallNo,
    pub placed: Vec<Placed>,
    pub pages: Vec<BlockNo>,
    pub writes: Vec<HostPart>,
    pub staging: Vec<Range>,
    pub count: usize,
}
