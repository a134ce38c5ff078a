//! The operations of a listing.

use crate::access::Mask;
use crate::command::Command;
use dx_types::{CallNo, ChunkNo, Range};

/// A pipeline barrier (after VkMemoryBarrier2), with the two commands that it stands for: no second is the host.
#[derive(Clone, Copy, Debug, PartialEq, Eq)]
pub struct Barrier {
    pub source: Mask,
    pub dest: Mask,
    pub first: u64,
    pub second: Option<u64>,
}

/// An operation of the listing.
#[derive(Drop)]
pub enum VkOp {
    HostWrite { range: Range, call: CallNo },
    Pipeline { shader: CallNo },
    Barrier(Barrier),
    Command(Command),
    Submit(ChunkNo),
    Fence(ChunkNo),
    HostRead { range: Range, call: CallNo },
}
