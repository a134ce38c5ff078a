//! The bytes that two acts share.

ghost use Rattle.std.specs.Prelude.{◌≡◌};
ghost use Rattle.vk_types.specs.Listing.{op_touches};
ghost use Rattle.list_audit.specs.Shared.{overlap, shared_with, shared_bytes};
ghost use Rattle.list_audit.specs.Shared as wanted;

use dx_types::Range;
use vk_order::{touch_count, touch_of};
use vk_types::{Touch, VkOp};

fn overlap(a: Range, b: Range) -> Range
    ensures { result ≡ overlap a b }
{
    Range {
        block: a.block,
        from: a.from.max(b.from),
        to: a.to.min(b.to),
    }
}

fn shared_with(t: &Touch, op: &VkOp) -> Option<Range>
    ensures { result ≡ wanted.shared_with t.now (op_touches op.now) }
{
    for i in 0..touch_count(op) {
        if let Some(u) = touch_of(op, i) {
            if t.conflicts(&u) {
                return Some(overlap(t.range, u.range));
            }
        }
    }
    None
}

/// The bytes that the first conflicting touches of two operations share: the first by those of the first operation, and then
/// by those of the second.
pub(crate) fn shared_bytes(first: &VkOp, second: &VkOp) -> Option<Range>
    ensures { result ≡ wanted.shared_bytes (op_touches first.now) (op_touches second.now) }
{
    for i in 0..touch_count(first) {
        if let Some(t) = touch_of(first, i) {
            let shared = shared_with(&t, second);
            if shared.is_some() {
                return shared;
            }
        }
    }
    None
}
