use dx_types::ViewShape;
use std::marker::Model;

/// A view that is set in a slot: its id, and its shape, since a view that is set can't be destroyed.
#[derive(Clone, Copy, Debug, PartialEq, Eq)]
pub struct BoundView {
    pub view: u32,
    pub shape: ViewShape,
}

impl Model for BoundView {
    ghost use Rattle.d3d_model.specs.Binding as model;

    ghost Value = { model.BoundView };

    ghost view = { λ b. record { view = b.view; shape = b.shape } };

    ghost inverse = { λ v. record { view = v.view; shape = v.shape } };
}
