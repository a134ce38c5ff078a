ghost use Rattle.std.specs.Prelude.{◌≡◌, ◌++◌, [], ◌∷◌, List, OnOk};
ghost use Rattle.std.specs.Option.{option_map, option_to_list};
ghost use Rattle.buffer_blocks.specs.declared.block.Block.{Block as Held};
ghost use Rattle.cs_chunk.specs.declared.entry.Entry.{Entry as Taken};

use buffer_blocks::Block;
use cs_chunk::Entry;
use dx_types::BlockNo;
use std::alloc::{AllocError, Global};
use vk_types::Placed;

/// What the entries so far hand to their batch.
#[derive(Drop)]
pub struct Handed {
    pub placed: Vec<Placed>,
    pub blocks: Vec<Block>,
    pub marks: Vec<BlockNo>,
}

impl Handed {
    ghost use Rattle.chunk_parts.specs.Handed.{IsHanded};

    /// No entry was taken yet.
    pub fn new(alloc: Global) -> Handed
        ensures { IsHanded [] result }
    {
        Handed {
            placed: Vec::new(alloc),
            blocks: Vec::new(alloc),
            marks: Vec::new(alloc),
        }
    }

    /// Takes an entry: its block is moved, and its place is kept.
    pub fn take(&mut self, e: Entry) -> Result<(), AllocError>
        ensures { OnOk result ((entries : List Taken) → IsHanded entries self.old
            → IsHanded (entries ++ e ∷ []) self.new) }
    {
        let Entry {
            call,
            item,
            block,
            mark,
            staged,
        } = e;
        let place = Placed {
            call,
            item,
            block: number_of(&block),
            mark,
            staged,
        };
        self.placed.push(place)?;
        push_mark(&mut self.marks, mark)?;
        push_block(&mut self.blocks, block)?;
        Ok(())
    }
}

// The number of a block, if there is one.
fn number_of(block: &Option<Block>) -> Option<BlockNo>
    ensures { result ≡ option_map (λ (b : Held). b.number) block.now }
{
    match block {
        Some(block) => Some(block.number),
        None => None,
    }
}

fn push_mark(marks: &mut Vec<BlockNo>, mark: Option<BlockNo>) -> Result<(), AllocError>
    ensures { OnOk result (marks.new.items ≡ marks.old.items ++ option_to_list mark) }
{
    if let Some(mark) = mark {
        marks.push(mark)?;
    }
    Ok(())
}

fn push_block(blocks: &mut Vec<Block>, block: Option<Block>) -> Result<(), AllocError>
    ensures { OnOk result (blocks.new.items ≡ blocks.old.items ++ option_to_list block) }
{
    if let Some(block) = block {
        blocks.push(block)?;
    }
    Ok(())
}
