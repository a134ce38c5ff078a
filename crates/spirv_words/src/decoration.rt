// The decorations, and the values that they take.

ghost use Rattle.std.specs.Prelude.{◌≡◌};
ghost use Rattle.spirv_model.specs.Decoration as decorations;

use dx_types::limits::MODULE_BINDINGS;
use spirv_model::built_ins::{LOCAL_INVOCATION_INDEX, WORKGROUP_ID};
use spirv_model::decorations::{ARRAY_STRIDE, BINDING, BLOCK, BUILT_IN, DESCRIPTOR_SET, OFFSET};
use spirv_model::settings::{ONLY_SET, WORD_BYTES};

/// Whether an id may have a decoration.
pub fn is_decoration(decoration: u32) -> bool
    ensures { result ≡ decorations.is_decoration decoration }
{
    matches!(
        decoration,
        BLOCK | ARRAY_STRIDE | BUILT_IN | BINDING | DESCRIPTOR_SET
    )
}

/// How many values a decoration has, None for one that the profile does not have.
pub fn value_count(decoration: u32) -> Option<usize>
    ensures { result ≡ decorations.values_of decoration }
{
    if decoration == BLOCK {
        Some(0)
    } else if is_decoration(decoration) || decoration == OFFSET {
        Some(1)
    } else {
        None
    }
}

/// Whether a decoration takes a value.
pub fn takes_value(decoration: u32, value: u32) -> bool
    ensures { result ≡ decorations.takes_value decoration value }
{
    match decoration {
        ARRAY_STRIDE => value == WORD_BYTES,
        BUILT_IN => WORKGROUP_ID <= value && value <= LOCAL_INVOCATION_INDEX,
        BINDING => value < MODULE_BINDINGS,
        DESCRIPTOR_SET => value == ONLY_SET,
        _ => true,
    }
}

/// Whether a member stands at an offset: each is a word.
pub fn is_offset_of(member: u32, value: u32) -> bool
    ensures { result ≡ decorations.is_offset_of member value }
{
    u64::from(value) == u64::from(WORD_BYTES) * u64::from(member)
}
