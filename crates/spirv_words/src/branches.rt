// The labels that branches name.

ghost use Rattle.std.specs.Prelude.{List, [], ◌∷◌, OnOk};
ghost use Rattle.spirv_model.specs.Op as instruction_;
ghost use Rattle.spirv_model.specs.View.{shown};
ghost use Rattle.spirv_words.specs.Kept.{NamesLabels};

use spirv_model::Op;
use std::alloc::{AllocError, Global};
use std::collections::BTreeSet;

/// The labels that the branches so far name.
#[derive(Drop)]
pub struct Branches {
    pub labels: BTreeSet<u32>,
}

impl Branches {
    ghost use Rattle.std.specs.Prelude.{◌≡◌, is_ok, ℕ, ◌||◌, ◌==◌};
    ghost use Rattle.std.specs.Ordering.{nat_cmp};
    ghost use Rattle.std.specs.BTreeSet.{contains};
    ghost use Rattle.spirv_model.specs.History.{is_branched_to};

    pub fn new(alloc: Global) -> Branches
        ensures { NamesLabels result [] }
    {
        Branches {
            labels: BTreeSet::new(alloc),
        }
    }

    /// Whether a branch names a label.
    pub fn has(&self, label: u32) -> bool
        ensures { (h : List instruction_.Op) → NamesLabels self.now h → result ≡ is_branched_to label h }
    {
        self.labels.contains(&label)
    }

    fn insert(&mut self, label: u32) -> Result<(), AllocError>
        ensures { OnOk result ((x : ℕ) → contains nat_cmp self.new.labels x ≡ (label == x) || contains nat_cmp self.old.labels x) }
    {
        if self.labels.insert(label).is_err() {
            return Err(AllocError);
        }
        Ok(())
    }

    /// Adds the labels that an instruction names, where it is a branch.
    pub fn add(&mut self, op: Op<'_>) -> Result<(), AllocError>
        ensures { (h : List instruction_.Op) → NamesLabels self.old h → OnOk result (NamesLabels self.new (shown op.entry ∷ h)) }
    {
        match op {
            Op::Branch { label } => self.insert(label),
            Op::BranchConditional { yes, no, .. } => {
                self.insert(no)?;
                self.insert(yes)
            }
            _ => Ok(()),
        }
    }
}
