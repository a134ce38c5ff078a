// The instructions that make ids.

ghost use Rattle.std.specs.Prelude.{◌≡◌, List, [], ◌∷◌, option_map, OnOk};
ghost use Rattle.spirv_model.specs.Op as instruction_;
ghost use Rattle.spirv_model.specs.History.{maker, result_of};
ghost use Rattle.spirv_model.specs.View.{shown};
ghost use Rattle.spirv_words.specs.Made.{Records};

use spirv_model::Op;
use std::alloc::{AllocError, Global};
use std::collections::BTreeMap;

/// The instructions so far by the ids that they make.
#[derive(Drop)]
pub struct Made<'a> {
    pub by_id: BTreeMap<u32, Op<'a>>,
}

/// The id that an instruction makes.
fn id_made(op: Op<'_>) -> Option<u32>
    ensures { result ≡ result_of (shown op.entry) }
{
    match op {
        Op::TypeVoid { id }
        | Op::TypeBool { id }
        | Op::TypeInt { id, .. }
        | Op::TypeVector { id, .. }
        | Op::TypeRuntimeArray { id, .. }
        | Op::TypeStruct { id, .. }
        | Op::TypePointer { id, .. }
        | Op::TypeFunction { id, .. }
        | Op::Constant { id, .. }
        | Op::Variable { id, .. }
        | Op::Function { id, .. }
        | Op::Load { id, .. }
        | Op::AccessChain { id, .. }
        | Op::CompositeExtract { id, .. }
        | Op::Unary { id, .. }
        | Op::Binary { id, .. }
        | Op::Select { id, .. }
        | Op::Atomic { id, .. }
        | Op::AtomicCompareExchange { id, .. }
        | Op::Label { id } => Some(id),
        Op::Capability { .. }
        | Op::MemoryModel { .. }
        | Op::EntryPoint { .. }
        | Op::ExecutionMode { .. }
        | Op::Decorate { .. }
        | Op::MemberDecorate { .. }
        | Op::FunctionEnd
        | Op::Store { .. }
        | Op::LoopMerge { .. }
        | Op::SelectionMerge { .. }
        | Op::Branch { .. }
        | Op::BranchConditional { .. }
        | Op::Return => None,
    }
}

impl<'a> Made<'a> {
    pub fn new(alloc: Global) -> Made<'a>
        ensures { Records result [] }
    {
        Made {
            by_id: BTreeMap::new(alloc),
        }
    }

    /// The instruction that makes an id.
    pub fn maker(&self, id: u32) -> Option<Op<'a>>
        ensures { (h : List instruction_.Op) → Records self.now h → option_map shown result ≡ maker id h }
    {
        self.by_id.get(&id).copied()
    }

    /// Adds an instruction.
    pub fn add(&mut self, op: Op<'a>) -> Result<(), AllocError>
        ensures { (h : List instruction_.Op) → Records self.old h → OnOk result (Records self.new (shown op.entry ∷ h)) }
    {
        if let Some(id) = id_made(op) {
            if self.by_id.insert(id, op).is_err() {
                return Err(AllocError);
            }
        }
        Ok(())
    }
}
