ghost use Rattle.std.specs.Prelude.{◌≡◌, ◌+◌, ◌<◌, ◌≤◌, ◌^◌, false, IfOk, OnOk};
ghost use Rattle.dx_types.specs.declared.limits.TheConstants.{MAX_BUFFER_SIZE};
ghost use Rattle.immediate_ctx.specs.Due.{is_full_by};
ghost use Rattle.immediate_ctx.specs.Items as items;
ghost use Rattle.immediate_ctx.specs.Items.{adds, block_if, destroys, gives_up, overwrites, plain, retires_block, uses, with_shader, with_use_of, with_uses, writes};
ghost use Rattle.immediate_ctx.specs.OpenChunk.{nothing_filled, staged_by};

use crate::app_part::AppPart;
use crate::buffers::{Buffer, Buffers};
use crate::open_chunk::OpenChunk;
use cs_chunk::Entry;
use dx_types::{BlockNo, CallNo, Range, ResRange};
use std::alloc::AllocError;
use vk_types::VkOp;

impl AppPart {
    /// An item that changes no block: state, commands, marks of queries. It uses the blocks of the staging buffers that it binds.
    pub fn play(
        &mut self,
        call: CallNo,
        item: CallNo,
        ends: bool,
        bound: &[ResRange],
    ) -> Result<(), AllocError>
        requires { is_full_by self.old.open_chunk.counts ≡ false }
        ensures { OnOk result (self.new ≡ plain call item ends bound.now self.old) }
    {
        self.use_ranges(bound)?;
        self.add(entry_at(call, item), false)?;
        self.pass(call, ends);
        Ok(())
    }

    /// The call creates a shader.
    pub fn create_shader(&mut self, call: CallNo) -> Result<(), AllocError>
        requires { is_full_by self.old.open_chunk.counts ≡ false }
        ensures { OnOk result (self.new ≡ with_shader call self.old) }
    {
        self.listing.push(VkOp::Pipeline { shader: call })?;
        self.add(entry_at(call, call), false)?;
        self.pass(call, true);
        Ok(())
    }

    /// A map that overwrites nothing in use writes so many bytes from there on, in the block where the buffer stands.
    pub fn overwrite(
        &mut self,
        call: CallNo,
        item: CallNo,
        ends: bool,
        id: u32,
        from: u64,
        len: u64,
    ) -> Result<(), AllocError>
        requires room { is_full_by self.old.open_chunk.counts ≡ false }
        requires fits { from + len < 2 ^ 64 }
        ensures { OnOk result (self.new ≡ overwrites call item ends id from len self.old) }
    {
        let block = block_if(self.buffers.get(id));
        self.write(
            call,
            Range {
                block,
                from,
                to: from + len,
            },
        )?;
        self.add(entry_at(call, item), false)?;
        self.pass(call, ends);
        Ok(())
    }

    /// The call destroys the live buffer with this id, which gives its block up: one of a class gets the open chunk's mark, a
    /// staging buffer's copy goes, and the open chunk doesn't name it any more.
    pub fn destroy(&mut self, call: CallNo, id: u32) -> Result<(), AllocError>
        requires { is_full_by self.old.open_chunk.counts ≡ false }
        ensures { OnOk result (self.new ≡ destroys call id self.old) }
    {
        let buffer = self.buffers.get(id);
        self.give_up(buffer)?;
        self.buffers.remove(id);
        let mut entry = entry_at(call, call);
        entry.mark = buffer.map(|b| b.block);
        self.add(entry, retires_block(buffer))?;
        self.pass(call, true);
        Ok(())
    }

    // The block of this buffer is given up.
    fn give_up(&mut self, buffer: Option<Buffer>) -> Result<(), AllocError>
        ensures { OnOk result (self.new ≡ gives_up buffer self.old) }
    {
        let Some(buffer) = buffer else {
            return Ok(());
        };
        if buffer.class.is_some() {
            let chunk = self.flight.next()?;
            self.blocks.mark(buffer.block, chunk)?;
        }
        self.copies.forget(buffer.block);
        if let Some(chunk) = &mut self.open_chunk {
            chunk.destroys(buffer.block);
        }
        Ok(())
    }

    // The host writes to a range, by a call. An empty range has no write.
    fn write(&mut self, call: CallNo, range: Range) -> Result<(), AllocError>
        ensures { OnOk result (self.new ≡ writes call range self.old) }
    {
        if range.from < range.to {
            self.listing.push(VkOp::HostWrite { range, call })?;
        }
        Ok(())
    }

    // Adds an entry to the open chunk.
    fn add(&mut self, e: Entry, retires: bool) -> Result<(), AllocError>
        requires room { is_full_by self.old.open_chunk.counts ≡ false }
        requires staged { staged_by e.staged ≤ MAX_BUFFER_SIZE }
        ensures { OnOk result (self.new ≡ adds e retires self.old) }
    {
        let mut chunk = self.take_open()?;
        chunk.add(e, retires)?;
        self.open_chunk = Some(chunk);
        Ok(())
    }

    // These ranges use the blocks of the staging buffers among them.
    fn use_ranges(&mut self, bound: &[ResRange]) -> Result<(), AllocError>
        ensures { OnOk result (self.new ≡ uses bound.now self.old) }
    {
        let mut chunk = self.take_open()?;
        use_all(&mut chunk, &self.buffers, bound)?;
        self.open_chunk = Some(chunk);
        Ok(())
    }

    // Takes the open chunk out, or a new one where there is none.
    fn take_open(&mut self) -> Result<OpenChunk, AllocError>
        ensures chunk { IfOk result (λ o. o ≡ self.old.open_chunk) }
        ensures rest { OnOk result (self.new ≡ record self.old { open_chunk = nothing_filled }) }
    {
        match self.open_chunk.take() {
            Some(chunk) => Ok(chunk),
            None => OpenChunk::new(self.alloc),
        }
    }
}

fn entry_at(call: CallNo, item: CallNo) -> Entry
    ensures { result ≡ items.entry_at call item }
{
    Entry {
        call,
        item,
        block: None,
        mark: None,
        staged: None,
    }
}

fn retires_block(buffer: Option<Buffer>) -> bool
    ensures { result ≡ retires_block buffer }
{
    match buffer {
        Some(buffer) => buffer.class.is_some(),
        None => false,
    }
}

fn block_if(buffer: Option<Buffer>) -> BlockNo
    ensures { result ≡ block_if buffer }
{
    match buffer {
        Some(buffer) => buffer.block,
        None => 0,
    }
}

// Each range of a live staging buffer uses its block.
fn use_all(chunk: &mut OpenChunk, buffers: &Buffers, bound: &[ResRange]) -> Result<(), AllocError>
    ensures { OnOk result (chunk.new ≡ with_uses buffers.now bound.now chunk.old) }
{
    'each: for r in bound {
        use_one(chunk, buffers.get(r.res))?;
    }
    Ok(())
}

fn use_one(chunk: &mut OpenChunk, buffer: Option<Buffer>) -> Result<(), AllocError>
    ensures { OnOk result (chunk.new ≡ with_use_of buffer chunk.old) }
{
    match buffer {
        Some(buffer) if buffer.is_staging => chunk.uses(buffer.block),
        _ => Ok(()),
    }
}
