ghost use Rattle.std.specs.Prelude.{◌≡◌, ◌&&◌, ◌||◌};
ghost use Rattle.d3d_model.specs.Check.{has, is_id};
ghost use Rattle.d3d_model.specs.Resource.{is_dynamic};
ghost use Rattle.d3d_model.specs.Verdict.{bad_stride, is_wrong_constant, is_wrong_length, is_wrong_stride};
ghost use Rattle.d3d_resources.specs.Creation.{has_bad_size, has_bad_bits, has_bad_usage};

use crate::classes::is_dynamic;
use dx_types::limits::{
    CONSTANT_BUFFER, KNOWN_BITS, MAX_BUFFER_SIZE, MAX_CONSTANT_SIZE, MAX_DYNAMIC_SIZE, MAX_ID,
    MAX_STRIDE, MIN_STRIDE, RAW_VIEWS, SHADER_RESOURCE, STRUCTURED, UNORDERED_ACCESS,
};
use dx_types::{Shape, Usage};

/// Whether the bit of this value is set.
pub fn has_bit(bits: u32, bit: u32) -> bool
    ensures { result ≡ has bits bit }
{
    bits & bit != 0
}

/// Whether an object may have this id: it is from 1 to 65,535.
pub fn is_id(id: u32) -> bool
    ensures { result ≡ is_id id }
{
    0 < id && id <= MAX_ID
}

fn is_wrong_length(shape: &Shape) -> bool
    ensures { result ≡ is_wrong_length shape.now.size (is_dynamic shape.now.usage) }
{
    let size = shape.size;
    size == 0
        || size % 4 != 0
        || size > MAX_BUFFER_SIZE
        || (is_dynamic(shape) && size > MAX_DYNAMIC_SIZE)
}

fn is_wrong_constant(shape: &Shape) -> bool
    ensures { result ≡ is_wrong_constant shape.now.bind shape.now.size }
{
    has_bit(shape.bind, CONSTANT_BUFFER) && (shape.size % 16 != 0 || shape.size > MAX_CONSTANT_SIZE)
}

/// A stride that a structured buffer of this size can't have.
fn is_bad_stride(size: u64, stride: u32) -> bool
    ensures { result ≡ bad_stride size stride }
{
    stride % 4 != 0 || stride < MIN_STRIDE || stride > MAX_STRIDE || size % u64::from(stride) != 0
}

fn is_wrong_stride(shape: &Shape) -> bool
    ensures { result ≡ is_wrong_stride shape.now.misc shape.now.size shape.now.stride }
{
    if has_bit(shape.misc, STRUCTURED) {
        is_bad_stride(shape.size, shape.stride)
    } else {
        shape.stride != 0
    }
}

pub(crate) fn has_bad_size(shape: &Shape) -> bool
    ensures { result ≡ has_bad_size shape.now }
{
    is_wrong_length(shape) || is_wrong_constant(shape) || is_wrong_stride(shape)
}

fn has_bad_bits(shape: &Shape) -> bool
    ensures { result ≡ has_bad_bits shape.now }
{
    let bind = shape.bind;
    let raw = has_bit(shape.misc, RAW_VIEWS);
    let structured = has_bit(shape.misc, STRUCTURED);
    bind > KNOWN_BITS
        || shape.misc > KNOWN_BITS
        || (has_bit(bind, CONSTANT_BUFFER) && bind != CONSTANT_BUFFER)
        || (raw && structured)
        || ((raw || structured)
            && !(has_bit(bind, SHADER_RESOURCE) || has_bit(bind, UNORDERED_ACCESS)))
}

fn has_bad_usage(shape: &Shape) -> bool
    ensures { result ≡ has_bad_usage shape.now }
{
    let written = has_bit(shape.bind, UNORDERED_ACCESS);
    match shape.usage {
        Usage::Default => false,
        Usage::Immutable => written,
        Usage::Dynamic => shape.bind == 0 || written,
        Usage::Staging => shape.bind != 0,
    }
}

pub(crate) fn has_bad_bind(shape: &Shape) -> bool
    ensures { result ≡ (has_bad_bits shape.now || has_bad_usage shape.now) }
{
    has_bad_bits(shape) || has_bad_usage(shape)
}
