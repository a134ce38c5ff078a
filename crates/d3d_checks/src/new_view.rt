ghost use Rattle.std.specs.Prelude.{◌≡◌, ◌≤◌};
ghost use Rattle.d3d_checks.specs.NewViews.{described_by};

use crate::numbers::form_from;
use d3d_model::codes::WRITE_VIEW;
use dx_types::{Form, Shape, ViewShape};

/// What a call says of a view to be created. `kind` says whether it is for reads or for writes, `form` how it reads its buffer,
/// both as numbers; `components` are those of a typed element.
#[derive(Clone, Copy, Debug, PartialEq, Eq)]
pub struct NewView {
    pub view: u32,
    pub res: u32,
    pub kind: u32,
    pub form: u32,
    pub components: u32,
    pub first: u32,
    pub count: u32,
}

/// The view of a buffer that is described.
pub fn described(shape: &Shape, ask: &NewView) -> ViewShape
    requires { ask.now.components ≤ 4 }
    ensures { result ≡ described_by shape.now ask.now }
{
    let form = form_from(ask.form);
    let unit = match form {
        Form::Raw => 4,
        Form::Structured => shape.stride,
        Form::Typed => 4 * ask.components,
    };
    ViewShape {
        res: ask.res,
        writable: ask.kind == WRITE_VIEW,
        form,
        unit,
        first: u64::from(ask.first),
        count: u64::from(ask.count),
    }
}
