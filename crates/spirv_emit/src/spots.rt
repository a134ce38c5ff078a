// The words of views that instructions reach.

ghost use Rattle.std.specs.Prelude.{◌≡◌, ◌<◌, ◌++◌, ◌∷◌, [], ◌&&◌, OnOk};
ghost use Rattle.shader_model.specs.Words as words;
ghost use Rattle.spirv_emit.specs.Lower as lower;

use crate::destinations::{add_masked, add_taken_from, has};
use crate::formula::Formula;
use crate::piece::{Action, Calculation, Leaf, Piece, Spot};
use crate::sources::{NOUGHT, source};
use crate::variables::result;
use dx_types::Form;
use dx_types::limits::{FIRST_SRV_BINDING, FIRST_UAV_BINDING};
use shader_model::{Declared, Instr, SlotUse, Target};
use std::alloc::AllocError;

/// The binding of a slot.
fn binding_of(slot: &SlotUse) -> u32
    ensures { result ≡ lower.binding_of slot.now }
{
    if slot.writable {
        FIRST_UAV_BINDING + u32::from(slot.slot)
    } else {
        FIRST_SRV_BINDING + u32::from(slot.slot)
    }
}

/// The word itself.
pub fn same(of: Leaf) -> Calculation
    ensures { result ≡ lower.same of }
{
    Calculation {
        leaves: [of, NOUGHT, NOUGHT, NOUGHT, NOUGHT],
        formula: Formula::Same,
    }
}

impl Spot {
    /// An access to a view.
    pub fn new(slot: &SlotUse, declared: &Declared, address: Leaf, offset: Leaf) -> Spot
        ensures { result ≡ lower.spot slot.now declared.now address offset }
    {
        Spot {
            binding: binding_of(slot),
            form: declared.form,
            parameter: declared.parameter,
            address,
            offset,
        }
    }

    /// Whether an access may reach this component at all.
    fn may_reach(&self, component: u32) -> bool
        ensures { result ≡ lower.may_reach self.now.form self.now.parameter component }
    {
        match self.form {
            Form::Raw => true,
            Form::Structured => 0 < self.parameter / 4,
            Form::Typed => component < self.parameter,
        }
    }

    /// Whether the word of a component is there.
    fn inside(&self, component: u32) -> Calculation
        ensures { result ≡ lower.inside_by self.now.form self.now component }
    {
        let component = Leaf::Number(component);
        let length = Leaf::Length(self.binding);
        match self.form {
            Form::Raw => Calculation {
                leaves: [self.address, component, length, NOUGHT, NOUGHT],
                formula: Formula::RawInside,
            },
            Form::Structured => Calculation {
                leaves: [
                    self.address,
                    self.offset,
                    component,
                    Leaf::Number(self.parameter / 4),
                    length,
                ],
                formula: Formula::StructuredInside,
            },
            Form::Typed => Calculation {
                leaves: [
                    self.address,
                    Leaf::Number(self.parameter),
                    length,
                    NOUGHT,
                    NOUGHT,
                ],
                formula: Formula::TypedInside,
            },
        }
    }

    /// Its place.
    fn place(&self, component: u32) -> Calculation
        ensures { result ≡ lower.place_by self.now.form self.now component }
    {
        let component = Leaf::Number(component);
        match self.form {
            Form::Raw => Calculation {
                leaves: [self.address, component, NOUGHT, NOUGHT, NOUGHT],
                formula: Formula::RawPlace,
            },
            Form::Structured => Calculation {
                leaves: [
                    self.address,
                    self.offset,
                    component,
                    Leaf::Number(self.parameter / 4),
                    NOUGHT,
                ],
                formula: Formula::StructuredPlace,
            },
            Form::Typed => Calculation {
                leaves: [
                    self.address,
                    Leaf::Number(self.parameter),
                    component,
                    NOUGHT,
                    NOUGHT,
                ],
                formula: Formula::TypedPlace,
            },
        }
    }

    fn reach(&self, component: u32, action: Action) -> Piece
        ensures { result ≡ lower.reach self.now component action }
    {
        Piece::Reach {
            inside: self.inside(component),
            binding: self.binding,
            place: self.place(component),
            action,
        }
    }

    /// What a load gives for a component that no access reaches.
    fn missing(&self, component: u32) -> Calculation
        ensures { result ≡ lower.missing self.now.form self.now component }
    {
        match self.form {
            Form::Raw => same(NOUGHT),
            Form::Structured => same(NOUGHT),
            Form::Typed => {
                if 0 < self.parameter && component == 3 {
                    Calculation {
                        leaves: [
                            self.address,
                            Leaf::Number(self.parameter),
                            Leaf::Length(self.binding),
                            NOUGHT,
                            NOUGHT,
                        ],
                        formula: Formula::TypedOne,
                    }
                } else {
                    same(NOUGHT)
                }
            }
        }
    }

    fn load_piece(&self, component: u32) -> Piece
        requires { component < 4 }
        ensures { result ≡ lower.load_piece self.now component }
    {
        let variable = result(0, component);
        if self.may_reach(component) {
            self.reach(component, Action::Fetch(variable))
        } else {
            Piece::Assign {
                variable,
                value: self.missing(component),
            }
        }
    }

    fn atomic_piece(&self, action: Action) -> Piece
        ensures { result ≡ lower.atomic_piece self.now action }
    {
        if self.may_reach(0) {
            self.reach(0, action)
        } else {
            Piece::Assign {
                variable: result(0, 0),
                value: same(NOUGHT),
            }
        }
    }

    /// Adds the loads of a destination's components.
    pub fn add_loads(
        &self,
        pieces: &mut Vec<Piece>,
        target: &Option<Target>,
    ) -> Result<(), AllocError>
        ensures { OnOk result (pieces.new.items ≡ pieces.old.items ++ lower.loads self.now target.now) }
    {
        let Some(to) = target else {
            return Ok(());
        };
        let of = [
            self.load_piece(0),
            self.load_piece(1),
            self.load_piece(2),
            self.load_piece(3),
        ];
        add_masked(pieces, to.mask, of[0], of[1], of[2], of[3])?;
        add_taken_from(pieces, target, 0)?;
        Ok(())
    }

    fn add_store(
        &self,
        pieces: &mut Vec<Piece>,
        value: Leaf,
        extra: u16,
        component: u32,
    ) -> Result<(), AllocError>
        requires { component < 4 }
        ensures { OnOk result (pieces.new.items ≡ pieces.old.items ++ lower.store_piece self.now value extra component) }
    {
        if has(extra, component) && self.may_reach(component) {
            pieces.push(self.reach(component, Action::Write(value)))?;
        }
        Ok(())
    }

    /// Adds the stores of the components that an extra has, of a source of this number.
    pub fn add_stores(
        &self,
        pieces: &mut Vec<Piece>,
        instr: &Instr,
        number: u32,
    ) -> Result<(), AllocError>
        requires { number < 4 }
        ensures { OnOk result (pieces.new.items ≡ pieces.old.items ++ lower.stores self.now instr.now.extra (lower.source instr.now number)) }
    {
        self.add_store(pieces, source(instr, number, 0), instr.extra, 0)?;
        self.add_store(pieces, source(instr, number, 1), instr.extra, 1)?;
        self.add_store(pieces, source(instr, number, 2), instr.extra, 2)?;
        self.add_store(pieces, source(instr, number, 3), instr.extra, 3)?;
        Ok(())
    }

    /// Adds an atomic, and the old word in the components of its destination.
    pub fn add_atomic(
        &self,
        pieces: &mut Vec<Piece>,
        target: &Option<Target>,
        action: Action,
    ) -> Result<(), AllocError>
        ensures { OnOk result (pieces.new.items ≡ pieces.old.items ++ lower.atomics self.now target.now action) }
    {
        pieces.push(self.atomic_piece(action))?;
        crate::destinations::add_old(pieces, target)?;
        Ok(())
    }
}
