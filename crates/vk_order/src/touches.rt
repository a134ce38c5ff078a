//! What an operation touches.

ghost use Rattle.std.specs.Prelude.{◌≡◌, length, slice_get};
ghost use Rattle.vk_types.specs.Listing.{op_touches};

use dx_types::Range;
use vk_types::{Access, Stage, Touch, VkOp};

fn host_touch(range: Range, access: Access) -> Touch
    ensures { result ≡ record { range = range; stage = Stage.Host; access = access } }
{
    Touch {
        range,
        stage: Stage::Host,
        access,
    }
}

/// The i-th of the ranges that an operation touches, from 0, and `None` past the last.
pub fn touch_of(op: &VkOp, i: usize) -> Option<Touch>
    ensures { result ≡ slice_get (op_touches op.now) i }
{
    match (op, i) {
        (VkOp::Command(command), _) => command.touch_at(i),
        (VkOp::HostWrite { range, .. }, 0) => Some(host_touch(*range, Access::WRITE)),
        (VkOp::HostRead { range, .. }, 0) => Some(host_touch(*range, Access::READ)),
        _ => None,
    }
}

/// How many ranges an operation touches.
pub fn touch_count(op: &VkOp) -> usize
    ensures { result ≡ length (op_touches op.now) }
{
    match op {
        VkOp::Command(command) => command.touch_count(),
        VkOp::HostWrite { .. } | VkOp::HostRead { .. } => 1,
        _ => 0,
    }
}
