// What names of instructions are looked up by while a table is made.

ghost use Rattle.std.specs.Prelude.{◌≡◌, ◌<◌, ◌+◌, ◌^◌, ◌==◌, if◌then◌else◌, ◌∷◌, [], ℕ, List, Some, map, OnOk, IfOk};
ghost use Rattle.std.specs.Ordering.{nat_cmp};
ghost use Rattle.std.specs.BTreeMap.{get};
ghost use Rattle.spirv_model.specs.Op as model;
ghost use Rattle.spirv_model.specs.View.{shown};
ghost use Rattle.spirv_run.specs.Decoding.{Knows};

use spirv_model::Op;
use spirv_model::decorations::{BINDING, BUILT_IN};
use std::alloc::{AllocError, Global};
use std::collections::BTreeMap;

/// By id: the places behind labels, the numbers of built-ins, and the bindings of buffers.
#[derive(Drop)]
pub struct Names {
    pub labels: BTreeMap<u32, usize>,
    pub built_ins: BTreeMap<u32, u32>,
    pub bindings: BTreeMap<u32, u32>,
}

impl Names {
    fn new(alloc: Global) -> Names
        ensures { (at : ℕ) → Knows result at [] }
    {
        Names {
            labels: BTreeMap::new(alloc),
            built_ins: BTreeMap::new(alloc),
            bindings: BTreeMap::new(alloc),
        }
    }

    /// Adds a label with the place behind it.
    fn add_label(&mut self, id: u32, behind: usize) -> Result<(), AllocError>
        ensures labels { OnOk result ((x : ℕ) → get nat_cmp self.new.labels x ≡ (if id == x then Some behind else get nat_cmp self.old.labels x)) }
        ensures built_ins { self.new.built_ins ≡ self.old.built_ins }
        ensures bindings { self.new.bindings ≡ self.old.bindings }
    {
        if self.labels.insert(id, behind).is_err() {
            return Err(AllocError);
        }
        Ok(())
    }

    /// Adds a decoration with its first value.
    fn add_decoration(&mut self, target: u32, decoration: u32, value: u32) -> Result<(), AllocError>
        ensures labels { self.new.labels ≡ self.old.labels }
        ensures built_ins { OnOk result ((x : ℕ) → get nat_cmp self.new.built_ins x ≡ (if target == x then (if decoration == BUILT_IN then Some value else get nat_cmp self.old.built_ins x) else get nat_cmp self.old.built_ins x)) }
        ensures bindings { OnOk result ((x : ℕ) → get nat_cmp self.new.bindings x ≡ (if target == x then (if decoration == BINDING then Some value else get nat_cmp self.old.bindings x) else get nat_cmp self.old.bindings x)) }
    {
        if decoration == BUILT_IN {
            if self.built_ins.insert(target, value).is_err() {
                return Err(AllocError);
            }
        } else if decoration == BINDING {
            if self.bindings.insert(target, value).is_err() {
                return Err(AllocError);
            }
        }
        Ok(())
    }

    /// Adds a decoration that stands before the instructions so far.
    fn decorate(&mut self, target: u32, decoration: u32, values: &[u32]) -> Result<(), AllocError>
        ensures { (at : ℕ) (ops : List model.Op) → Knows self.old (at + 1) ops → OnOk result (Knows self.new at (model.Decorate target decoration values.now ∷ ops)) }
    {
        match values {
            [] => Ok(()),
            [value, ..] => self.add_decoration(target, decoration, *value),
        }
    }

    /// Adds an instruction that stands before those so far, with its place.
    fn add(&mut self, op: Op<'_>, at: usize) -> Result<(), AllocError>
        requires { at + 1 < 2 ^ 64 }
        ensures { (ops : List model.Op) → Knows self.old (at + 1) ops → OnOk result (Knows self.new at (shown op.entry ∷ ops)) }
    {
        match op {
            Op::Label { id } => self.add_label(id, at + 1),
            Op::Decorate {
                target,
                decoration,
                values,
            } => self.decorate(target, decoration, values),
            _ => Ok(()),
        }
    }

    /// The names of instructions.
    pub fn of(alloc: Global, ops: &[Op<'_>]) -> Result<Names, AllocError>
        ensures { IfOk result (λ names. Knows names 0 (map shown ops.now)) }
    {
        let mut names = Names::new(alloc);
        let mut at = ops.len();
        'ops: while at > 0 {
            at -= 1;
            names.add(ops[at], at)?;
        }
        Ok(names)
    }
}
