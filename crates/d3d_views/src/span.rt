ghost use Rattle.std.specs.Prelude.{◌≡◌, ◌≤◌, ◌==◌, ◌||◌, nat_lt, OnOk};
ghost use Rattle.d3d_model.specs.View.{lacks_bind, lacks_form, view_end, view_span};
ghost use Rattle.d3d_views.specs.Limits.{IsUnit};

use dx_types::limits::{RAW_VIEWS, SHADER_RESOURCE, STRUCTURED, UNORDERED_ACCESS};
use dx_types::{Form, Refusal, Shape, Span, ViewShape};

/// Whether the buffer wasn't made for views of this kind: for writes, or for reads.
pub fn lacks_bind(shape: &Shape, writable: bool) -> bool
    ensures { result ≡ lacks_bind shape.now writable }
{
    let bit = if writable {
        UNORDERED_ACCESS
    } else {
        SHADER_RESOURCE
    };
    shape.bind & bit == 0
}

fn lacks_form(shape: &Shape, form: Form) -> bool
    ensures { result ≡ lacks_form shape.now form }
{
    match form {
        Form::Raw => shape.misc & RAW_VIEWS == 0,
        Form::Structured => shape.misc & STRUCTURED == 0,
        Form::Typed => shape.misc & STRUCTURED != 0,
    }
}

/// Whether the view has no element, or ends past a buffer of this size.
fn is_outside(size: u64, v: &ViewShape) -> bool
    ensures { result ≡ ((v.now.count == 0) || nat_lt size (view_end v.now)) }
{
    let end = (u128::from(v.first) + u128::from(v.count)) * u128::from(v.unit);
    v.count == 0 || end > u128::from(size)
}

/// The bytes of a view of a buffer of this shape. It is refused as `BadBind` where the buffer wasn't made for views of its
/// kind, as `BadFormat` where it wasn't made for views of its form, and as `OutOfRange` where it is empty or ends past the
/// buffer. The view's unit is 4 for the raw form, the buffer's stride for the structured one, and 4, 8 or 16 for the typed one.
pub fn view_span(shape: &Shape, v: &ViewShape) -> Result<Span, Refusal>
    requires { IsUnit v.now.form shape.now.stride v.now.unit }
    ensures value { result ≡ view_span shape.now v.now }
    ensures inside { OnOk result (view_end v.now ≤ shape.now.size) }
{
    if lacks_bind(shape, v.writable) {
        return Err(Refusal::BadBind);
    }
    if lacks_form(shape, v.form) {
        return Err(Refusal::BadFormat);
    }
    if is_outside(shape.size, v) {
        return Err(Refusal::OutOfRange);
    }
    let unit = u64::from(v.unit);
    Ok(Span {
        start: v.first * unit,
        len: v.count * unit,
    })
}
