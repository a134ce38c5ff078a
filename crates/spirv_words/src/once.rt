// The types that are declared once.

ghost use Rattle.std.specs.Prelude.{◌≡◌, List, [], ◌∷◌, OnOk};
ghost use Rattle.spirv_model.specs.Op as instruction_;
ghost use Rattle.spirv_model.specs.View.{shown};
ghost use Rattle.spirv_model.specs.Types.{same_type};
ghost use Rattle.std.specs.List.{list_any};
ghost use Rattle.spirv_words.specs.Kept.{HasTypes};

use spirv_model::Op;
use std::alloc::{AllocError, Global};

/// The types so far that are no aggregates and no pointers. The profile has few of them, so they are gone through
/// one by one.
#[derive(Drop)]
pub struct Once<'a> {
    pub types: Vec<Op<'a>>,
}

/// Whether two instructions declare the same type.
fn same_type(a: Op<'_>, b: Op<'_>) -> bool
    ensures { result ≡ same_type (shown a.entry) (shown b.entry) }
{
    match (a, b) {
        (Op::TypeVoid { .. }, Op::TypeVoid { .. }) => true,
        (Op::TypeBool { .. }, Op::TypeBool { .. }) => true,
        (
            Op::TypeInt { width, sign, .. },
            Op::TypeInt {
                width: other_width,
                sign: other_sign,
                ..
            },
        ) => width == other_width && sign == other_sign,
        (
            Op::TypeVector {
                component,
                count,
                ..
            },
            Op::TypeVector {
                component: other_component,
                count: other_count,
                ..
            },
        ) => component == other_component && count == other_count,
        (
            Op::TypeFunction { returned, .. },
            Op::TypeFunction {
                returned: other_returned,
                ..
            },
        ) => returned == other_returned,
        _ => false,
    }
}

impl<'a> Once<'a> {
    pub fn new(alloc: Global) -> Once<'a>
        ensures { HasTypes result [] }
    {
        Once {
            types: Vec::new(alloc),
        }
    }

    /// Whether the type of an instruction is declared.
    pub fn has(&self, op: Op<'_>) -> bool
        ensures { result ≡ list_any (λ v. same_type (shown op.entry) (shown v)) self.now.types.items }
    {
        self.types.iter().any(|other| same_type(op, *other))
    }

    /// Adds an instruction, where it declares a type.
    #[tactic(auto, using(crate::proofs::Lists::any_pushed))]
    pub fn add(&mut self, op: Op<'a>) -> Result<(), AllocError>
        ensures { (h : List instruction_.Op) → HasTypes self.old h → OnOk result (HasTypes self.new (shown op.entry ∷ h)) }
    {
        match op {
            Op::TypeVoid { .. }
            | Op::TypeBool { .. }
            | Op::TypeInt { .. }
            | Op::TypeVector { .. }
            | Op::TypeFunction { .. } => {
                self.types.push(op)?;
                Ok(())
            }
            _ => Ok(()),
        }
    }
}
