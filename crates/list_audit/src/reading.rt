//! A text, as it is read: the operations of a listing, and behind them an order or none.

ghost use Rattle.std.specs.Prelude.{◌≡◌, ◌+◌, ◌<◌, ◌^◌, IfOk, IfErr};
ghost use Rattle.std.specs.Option.{option_map};
ghost use Rattle.list_audit.specs.AuditText.{BadOnly};
ghost use Rattle.list_audit.specs.Reading.{IsFront, IsLast, BadLast};

use crate::audit_end::AuditEnd;
use crate::numbers::{last_with, may_follow};
use std::alloc::Global;
use text_words::next_line;
use vk_trace::{Stop, most_operations, read_op, read_order};
use vk_types::VkOp;

/// The operations whose lines stand in front, and what stands behind them.
pub(crate) fn read_front(alloc: Global, text: &[u8]) -> Result<(Vec<VkOp>, &[u8]), AuditEnd>
    ensures front { IfOk result (λ r. IsFront text.now r.0.items r.1.now) }
    ensures bad { IfErr result (BadOnly text.now) }
{
    let mut ops = Vec::with_capacity(alloc, most_operations(text))?;
    let mut last = None;
    let mut rest = text;
    'lines: while let Some((bare, after)) = next_line(rest) {
        let op = match read_op(alloc, bare) {
            Ok(op) => op,
            Err(Stop::Bad) => return Ok((ops, rest)),
            Err(Stop::NoMemory) => return Err(AuditEnd::NoMemory),
        };
        if !may_follow(last, &op) {
            return Err(AuditEnd::Bad {
                line: ops.len() as u64 + 1,
            });
        }
        last = last_with(last, &op);
        ops.push(op)?;
        rest = after;
    }
    Ok((ops, rest))
}

/// The order that is all of the rest, which begins with this line; none where nothing is left.
pub(crate) fn read_last(alloc: Global, rest: &[u8], line: u64) -> Result<Option<Vec<u32>>, AuditEnd>
    requires { line + 1 < 2 ^ 64 }
    ensures last { IfOk result (λ order. IsLast rest.now (option_map (λ v. v.items) order)) }
    ensures bad { IfErr result (BadLast rest.now line) }
{
    if rest.is_empty() {
        return Ok(None);
    }
    let Some((bare, after)) = next_line(rest) else {
        return Err(AuditEnd::Bad { line });
    };
    let places = match read_order(alloc, bare) {
        Ok(places) => places,
        Err(Stop::Bad) => return Err(AuditEnd::Bad { line }),
        Err(Stop::NoMemory) => return Err(AuditEnd::NoMemory),
    };
    if !after.is_empty() {
        return Err(AuditEnd::Bad { line: line + 1 });
    }
    Ok(Some(places))
}
