ghost use Rattle.std.specs.Prelude.{◌≡◌, ◌<◌, ◌^◌};
ghost use Rattle.d3d_checks.specs.Asked.{passes};
ghost use Rattle.d3d_model.specs.Resource.{usage_from};
ghost use Rattle.d3d_model.specs.View.{form_from};
ghost use Rattle.d3d_resources.specs.Creation.{shape_of};

use d3d_model::codes::{DEFAULT_USAGE, DYNAMIC_USAGE, IMMUTABLE_USAGE, RAW_FORM, STRUCTURED_FORM};
use dx_types::{Form, Shape, Usage};

/// The usage of a number from 0 to 3.
pub(crate) fn usage_from(number: u32) -> Usage
    ensures { result ≡ usage_from number }
{
    match number {
        DEFAULT_USAGE => Usage::Default,
        IMMUTABLE_USAGE => Usage::Immutable,
        DYNAMIC_USAGE => Usage::Dynamic,
        _ => Usage::Staging,
    }
}

/// The shape that a creation describes.
pub fn shape_from(size: u32, usage: u32, bind: u32, misc: u32, stride: u32) -> Shape
    ensures { result ≡ shape_of size usage bind misc stride }
{
    Shape {
        size: u64::from(size),
        usage: usage_from(usage),
        bind,
        misc,
        stride,
    }
}

/// The form of a number from 0 to 2.
pub(crate) fn form_from(number: u32) -> Form
    ensures { result ≡ form_from number }
{
    match number {
        RAW_FORM => Form::Raw,
        STRUCTURED_FORM => Form::Structured,
        _ => Form::Typed,
    }
}

/// Whether so many bytes from an offset on pass the end of a buffer.
pub(crate) fn passes_end(shape: &Shape, offset: u32, len: u64) -> bool
    requires { len < 2 ^ 63 }
    ensures { result ≡ passes shape.now offset len }
{
    u64::from(offset) + len > shape.size
}
