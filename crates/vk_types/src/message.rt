//! What the parts hand to each other: batches, submissions, completions and posts.

use crate::op::VkOp;
use buffer_blocks::Block;
use dx_types::{BlockNo, ByteList, CallNo, ChunkNo, Range, Span};

/// Bytes of the log that the host writes into a block.
#[derive(Clone, Copy, Debug)]
pub struct HostPart {
    pub range: Range,
    pub span: Span,
}

/// A copy of a staging buffer's block.
#[derive(Drop)]
pub struct Snap {
    pub block: BlockNo,
    pub bytes: ByteList,
}

/// A query's count, as an End left it.
#[derive(Clone, Copy, Debug)]
pub struct QueryValue {
    pub call: CallNo,
    pub query: u32,
    pub value: u64,
}

/// A Begin or an End of a query, which stands before the command of that number.
#[derive(Clone, Copy, Debug)]
pub struct QueryMark {
    pub call: CallNo,
    pub query: u32,
    pub begins: bool,
    pub before: u64,
}

/// Where an item's bytes stand: the block that it takes, the block that it retires, and its staged range.
#[derive(Clone, Copy, Debug)]
pub struct Placed {
    pub call: CallNo,
    pub item: CallNo,
    pub block: Option<BlockNo>,
    pub mark: Option<BlockNo>,
    pub staged: Option<Range>,
}

/// A chunk's commands and host writes, with the blocks that they need.
#[derive(Drop)]
pub struct Batch {
    pub number: ChunkNo,
    pub upto: CallNo,
    pub placed: Vec<Placed>,
    pub blocks: Vec<Block>,
    pub pages: Vec<Block>,
    pub writes: Vec<HostPart>,
    pub ops: Vec<VkOp>,
    pub marks: Vec<BlockNo>,
    pub staging: Vec<Range>,
    pub queries: Vec<QueryMark>,
}

/// A batch on its way to the device (after vkQueueSubmit2).
#[derive(Drop)]
pub struct Submission {
    pub batch: Batch,
}

/// A batch whose commands were all run.
#[derive(Drop)]
pub struct Completion {
    pub number: ChunkNo,
    pub upto: CallNo,
    pub placed: Vec<Placed>,
    pub homes: Vec<Block>,
    pub pages: Vec<Block>,
    pub snaps: Vec<Snap>,
    pub values: Vec<QueryValue>,
    pub ops: Vec<VkOp>,
}

/// What the recorder learns of a completed batch (after a signalled fence).
#[derive(Drop)]
pub struct Post {
    pub number: ChunkNo,
    pub upto: CallNo,
    pub placed: Vec<Placed>,
    pub pages: Vec<Block>,
    pub snaps: Vec<Snap>,
    pub values: Vec<QueryValue>,
    pub ops: Vec<VkOp>,
}
