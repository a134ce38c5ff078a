ghost use Rattle.std.specs.Prelude.{◌≡◌, ℕ, List, length, OnOk, Some};
ghost use Rattle.dx_types.specs.declared.range.Span.{Span as Part};
ghost use Rattle.core_model.specs.Batching.{Made, next_chunk, make_write};

use dx_types::{BlockNo, Range, Span};
use std::alloc::{AllocError, Global};
use vk_types::{HostPart, QueryMark, VkOp};

/// What a chunk's items made so far: the parts of the log that the host writes, the operations, the whole range of each
/// staging buffer that they use and do not destroy, and the marks of queries.
#[derive(Drop)]
pub struct Parts {
    pub writes: Vec<HostPart>,
    pub ops: Vec<VkOp>,
    pub staging: Vec<Range>,
    pub queries: Vec<QueryMark>,
}

impl Parts {
    ghost use Rattle.core_model.specs.Adding.{without_block};
    ghost use Rattle.batch_make.specs.Making.{Has, with_whole};

    /// Nothing was made of the chunk.
    pub fn new(alloc: Global) -> Parts
        ensures { (part : Part → List ℕ) (m : Made) → Has part (next_chunk m) result }
    {
        Parts {
            writes: Vec::new(alloc),
            ops: Vec::new(alloc),
            staging: Vec::new(alloc),
            queries: Vec::new(alloc),
        }
    }

    /// The host writes a part of the log to a range of as many bytes. No bytes are no write.
    pub fn write(&mut self, range: Range, span: Span) -> Result<(), AllocError>
        ensures { OnOk result ((part : Part → List ℕ) (m : Made) (bytes : List ℕ)
            → part span ≡ bytes → length bytes ≡ span.len → Has part m self.old
            → Has part (make_write range bytes m) self.new) }
    {
        if span.len > 0 {
            self.writes.push(HostPart { range, span })?;
        }
        Ok(())
    }

    /// A staging buffer of this size is used, which stands in this block from its first byte on.
    pub fn use_staging(&mut self, block: BlockNo, size: u64) -> Result<(), AllocError>
        ensures { OnOk result ((part : Part → List ℕ) (m : Made) → Has part m self.old
            → Has part (record m { staging = with_whole block size m.staging }) self.new) }
    {
        use_whole(&mut self.staging, block, size)
    }

    /// The staging buffer in this block is destroyed, if it is one.
    pub fn drop_staging(&mut self, block: BlockNo)
        ensures { (part : Part → List ℕ) (m : Made) → Has part m self.old
            → Has part (record m { staging = without_block (Some block) m.staging }) self.new }
    {
        drop_block(&mut self.staging, block);
    }
}

ghost use Rattle.core_model.specs.Adding.{has_block, without_block};
ghost use Rattle.batch_make.specs.Making.{with_whole};

// Whether a range lies in the block.
fn has_block(ranges: &[Range], block: BlockNo) -> bool
    ensures { result ≡ has_block block ranges.now }
{
    ranges.iter().any(|r| r.block == block)
}

// The whole of a block, once.
fn use_whole(ranges: &mut Vec<Range>, block: BlockNo, size: u64) -> Result<(), AllocError>
    ensures { OnOk result (ranges.new.items ≡ with_whole block size ranges.old.items) }
{
    if !has_block(ranges, block) {
        ranges.push(Range {
            block,
            from: 0,
            to: size,
        })?;
    }
    Ok(())
}

// The ranges that do not lie in the block.
fn drop_block(ranges: &mut Vec<Range>, block: BlockNo)
    ensures { ranges.new.items ≡ without_block (Some block) ranges.old.items }
{
    ranges.retain(|r| r.block != block);
}
