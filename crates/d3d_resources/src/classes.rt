ghost use Rattle.std.specs.Prelude.{◌≡◌, ℕ, ◌+◌, ◌<◌, ◌≤◌, slice_index};
ghost use Rattle.d3d_model.specs.Resource.{class_of, is_dynamic, counts_as};
ghost use Rattle.dx_types.specs.Classes.{class_length};
ghost use Rattle.dx_types.specs.declared.limits.TheConstants.{MAX_DYNAMIC_OF_CLASS};

use dx_types::limits::{CLASSES, LEAST_BLOCK};
use dx_types::{Shape, Usage};

/// The least class whose blocks hold this many bytes, and the greatest for what none holds.
pub(crate) fn class_of(size: u64) -> usize
    ensures value { result ≡ class_of size }
    ensures in_range { result < CLASSES }
{
    'classes: for class in 0..CLASSES - 1 {
        if size <= class_length(class) {
            return class;
        }
    }
    CLASSES - 1
}

// The bytes of a block of a class.
fn class_length(class: usize) -> u64
    requires { class < CLASSES }
    ensures { result ≡ class_length class }
{
    LEAST_BLOCK * 4_u64.pow(class as u32)
}

pub(crate) fn is_dynamic(shape: &Shape) -> bool
    ensures { result ≡ is_dynamic shape.now.usage }
{
    matches!(shape.usage, Usage::Dynamic)
}

/// One more live buffer of this shape.
pub(crate) fn count_in(dynamic: &mut [u32; CLASSES], shape: &Shape)
    requires { (class : ℕ) → class < CLASSES → slice_index dynamic.old class ≤ MAX_DYNAMIC_OF_CLASS }
    ensures { (class : ℕ) → class < CLASSES
        → slice_index dynamic.new class ≡ slice_index dynamic.old class + counts_as class shape.now }
{
    if is_dynamic(shape) {
        dynamic[class_of(shape.size)] += 1;
    }
}

/// One live buffer of this shape less.
pub(crate) fn count_out(dynamic: &mut [u32; CLASSES], shape: &Shape)
    requires { (class : ℕ) → class < CLASSES → counts_as class shape.now ≤ slice_index dynamic.old class }
    ensures { (class : ℕ) → class < CLASSES
        → slice_index dynamic.new class + counts_as class shape.now ≡ slice_index dynamic.old class }
{
    if is_dynamic(shape) {
        dynamic[class_of(shape.size)] -= 1;
    }
}
