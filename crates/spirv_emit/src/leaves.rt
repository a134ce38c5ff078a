// The code of the words that a calculation begins with.

ghost use Rattle.std.specs.Prelude.{◌≡◌, ◌+◌, ◌<◌, ◌^◌, ◌∷◌, [], OnOk, IfOk};
ghost use Rattle.spirv_model.specs.Op as op;
ghost use Rattle.spirv_emit.specs.declared.piece.Leaf.TheVariants as leaf;
ghost use Rattle.spirv_emit.specs.Layout.{word_type, vector_type, vector_id};
ghost use Rattle.spirv_emit.specs.Code.{leaf_size, leaf_ops, leaf_id, leaves_size, leaves_ops, leaf_ids};
ghost use Rattle.spirv_emit.specs.Emits.{layout_of, Appends, LeafIsSmall, LeavesAreSmall};

use crate::code::Code;
use crate::ids::{
    GLOBAL_ID, GROUP_ID, LENGTHS, THREAD_ID, THREAD_INDEX, TO_LENGTH, VECTOR_TYPE, WORD_TYPE,
};
use crate::piece::{Leaf, Vector};
use crate::plan::Plan;
use std::alloc::AllocError;

/// The variable of a built-in vector.
fn vector_id(vector: Vector) -> u32
    ensures { result ≡ vector_id vector }
{
    match vector {
        Vector::Group => GROUP_ID,
        Vector::Thread => THREAD_ID,
        Vector::Global => GLOBAL_ID,
    }
}

impl Code {
    fn length(&mut self, plan: &Plan, binding: u32) -> Result<u32, AllocError>
        requires { self.old.next + 2 < 2 ^ 32 }
        ensures id { IfOk result (λ r. r ≡ self.old.next + 1) }
        ensures appends { let at = layout_of plan.now in let n = self.old.next in OnOk result (Appends self.old self.new (leaf_ops at n (leaf.Length binding)) (n + 2)) }
    {
        let pointer = self.access(TO_LENGTH, LENGTHS, plan.number(binding))?;
        let word = self.load(WORD_TYPE, pointer)?;
        Ok(word)
    }

    fn component(&mut self, vector: Vector, component: u32) -> Result<u32, AllocError>
        requires { self.old.next + 2 < 2 ^ 32 }
        ensures id { IfOk result (λ r. r ≡ self.old.next + 1) }
        ensures appends { let n = self.old.next in OnOk result (Appends self.old self.new (op.Load vector_type n (vector_id vector) ∷ op.CompositeExtract word_type (n + 1) n component ∷ []) (n + 2)) }
    {
        let loaded = self.load(VECTOR_TYPE, vector_id(vector))?;
        let word = self.extract(loaded, component)?;
        Ok(word)
    }

    /// A leaf's value, by its id.
    pub fn leaf(&mut self, plan: &Plan, leaf: Leaf) -> Result<u32, AllocError>
        requires small { LeafIsSmall leaf }
        requires room { self.old.next + leaf_size leaf < 2 ^ 32 }
        ensures id { let at = layout_of plan.now in IfOk result (λ r. r ≡ leaf_id at self.old.next leaf) }
        ensures appends { let at = layout_of plan.now in let n = self.old.next in OnOk result (Appends self.old self.new (leaf_ops at n leaf) (n + leaf_size leaf)) }
    {
        match leaf {
            Leaf::Number(number) => Ok(plan.number(number)),
            Leaf::Variable(variable) => self.load(WORD_TYPE, plan.variable(variable)),
            Leaf::Length(binding) => self.length(plan, binding),
            Leaf::Component(vector, component) => self.component(vector, component),
            Leaf::Flattened => self.load(WORD_TYPE, THREAD_INDEX),
        }
    }

    /// The five leaves of a calculation.
    pub fn leaves(&mut self, plan: &Plan, leaves: [Leaf; 5]) -> Result<[u32; 5], AllocError>
        requires small { LeavesAreSmall leaves }
        requires room { self.old.next + leaves_size leaves < 2 ^ 32 }
        ensures ids { let at = layout_of plan.now in IfOk result (λ ids. ids ≡ leaf_ids at self.old.next leaves) }
        ensures appends { let at = layout_of plan.now in let n = self.old.next in OnOk result (Appends self.old self.new (leaves_ops at n leaves) (n + leaves_size leaves)) }
    {
        let [a, b, c, d, e] = leaves;
        let a = self.leaf(plan, a)?;
        let b = self.leaf(plan, b)?;
        let c = self.leaf(plan, c)?;
        let d = self.leaf(plan, d)?;
        let e = self.leaf(plan, e)?;
        Ok([a, b, c, d, e])
    }
}
