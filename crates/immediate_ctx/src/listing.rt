ghost use Rattle.std.specs.Prelude.{◌≡◌, List, [], ◌∷◌, ◌++◌, map, IfOk, OnOk, OnErr};
ghost use Rattle.immediate_ctx.specs.declared.listing.Own.{Own};
ghost use Rattle.immediate_ctx.specs.Listing.{expand, option_items, with_batch, with_own};
ghost use Rattle.immediate_ctx.specs.declared.listing.Own.TheVariants.{Op, Handed};

use std::alloc::{AllocError, Global};
use std::collections::VecDeque;
use std::marker::Model;
use vk_types::VkOp;

/// What the recorder itself puts into the listing.
#[derive(Drop)]
pub enum Own {
    /// An operation of its own: a host write, a pipeline, a fence, a host read.
    Op(VkOp),
    /// The place of the next chunk's operations, which a Post brings.
    Handed,
}

/// The listing as the recorder keeps it, if it is traced: its own operations in order, and the operations of the batches whose Posts
/// were taken.
#[derive(Drop)]
pub struct Listing {
    alloc: Global,
    traced: bool,
    own: VecDeque<Own>,
    batches: VecDeque<Vec<VkOp>>,
}

impl Model for Listing {
    ghost use Rattle.std.specs.Prelude.{map};
    ghost use Rattle.immediate_ctx.specs.Listing.{Kept};

    ghost Value = { Kept };

    ghost view = { λ l. record { traced = l.traced; own = l.own.items; batches = map (λ b. b.items) l.batches.items } };
}

impl Listing {
    /// A listing without operations. One that isn't traced stays so.
    pub fn new(alloc: Global, traced: bool) -> Listing
        ensures { result ≡ record { traced = traced; own = []; batches = [] } }
    {
        Listing {
            alloc,
            traced,
            own: VecDeque::new(alloc),
            batches: VecDeque::new(alloc),
        }
    }

    /// Puts an operation behind the others. A lack of memory changes nothing.
    pub fn push(&mut self, o: VkOp) -> Result<(), AllocError>
        ensures ok { OnOk result (self.new ≡ with_own (Op o) self.old) }
        ensures err { OnErr result (self.new ≡ self.old) }
    {
        if self.traced {
            self.own.push_back(Own::Op(o))?;
        }
        Ok(())
    }

    /// The next chunk was handed over: its operations stand here. A lack of memory changes nothing.
    pub fn hand(&mut self) -> Result<(), AllocError>
        ensures ok { OnOk result (self.new ≡ with_own Handed self.old) }
        ensures err { OnErr result (self.new ≡ self.old) }
    {
        if self.traced {
            self.own.push_back(Own::Handed)?;
        }
        Ok(())
    }

    /// The operations of the next batch, as its Post brings them. A lack of memory changes nothing.
    pub fn bring(&mut self, ops: Vec<VkOp>) -> Result<(), AllocError>
        ensures ok { OnOk result (self.new ≡ with_batch ops.items self.old) }
        ensures err { OnErr result (self.new ≡ self.old) }
    {
        if self.traced {
            self.batches.push_back(ops)?;
        }
        Ok(())
    }

    /// All operations in order: those of the k-th batch stand where the k-th chunk was handed over. Each is moved.
    pub fn into_ops(self) -> Result<Vec<VkOp>, AllocError>
        ensures { IfOk result (λ ops. ops.items ≡ expand self.batches self.own) }
    {
        let Listing {
            alloc,
            traced: _,
            mut own,
            mut batches,
        } = self;
        let mut all = Vec::new(alloc);
        'each: while let Some(o) = own.pop_front() {
            expand_one(o, &mut batches, &mut all)?;
        }
        Ok(all)
    }
}

// Moves an operation, or those of the next batch, behind the others.
fn expand_one(
    o: Own,
    batches: &mut VecDeque<Vec<VkOp>>,
    all: &mut Vec<VkOp>,
) -> Result<(), AllocError>
    ensures { OnOk result ((rest : List Own) → all.new.items ++ expand (map (λ b. b.items) batches.new.items) rest
        ≡ all.old.items ++ expand (map (λ b. b.items) batches.old.items) (o ∷ rest)) }
{
    match o {
        Own::Op(op) => {
            all.push(op)?;
            Ok(())
        }
        Own::Handed => append(all, batches.pop_front()),
    }
}

// Moves these operations, if there are any, behind the others.
fn append(all: &mut Vec<VkOp>, ops: Option<Vec<VkOp>>) -> Result<(), AllocError>
    ensures { OnOk result (all.new.items ≡ all.old.items ++ option_items ops) }
{
    if let Some(mut ops) = ops {
        all.append(&mut ops)?;
    }
    Ok(())
}
