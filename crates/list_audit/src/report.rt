//! The report on a text.

ghost use Rattle.std.specs.Prelude.{◌≡◌, ◌≤◌, ◌<◌, ◌^◌, IfOk, IfErr, None, length};
ghost use Rattle.std.specs.Option.{option_map};
ghost use Rattle.dx_types.specs.declared.limits.TheConstants.{MAX_LISTING};
ghost use Rattle.list_audit.specs.AuditText.{BadOnly};
ghost use Rattle.list_audit.specs.Reports.{AreShared, IsHazardIf, IsReport, IsVerdictIf, OrdersAgree, Reports, shared_of};

use crate::audit_end::AuditEnd;
use crate::reading::{read_front, read_last};
use crate::sharing::shared_bytes;
use dx_types::Range;
use std::alloc::{AllocError, Global};
use vk_order::{OrderEnd, Uncovered, allowed_by_index, covered_by_index};
use vk_types::VkOp;

/// What an audit says: the first pair that is not covered, if there is one, with the bytes that its first conflicting touches
/// share; and whether the order is allowed, if there is one.
#[derive(Clone, Copy, Debug)]
pub struct Report {
    pub pair: Option<Uncovered>,
    pub shared: Option<Range>,
    pub order: Option<Result<(), OrderEnd>>,
}

fn verdict(
    alloc: Global,
    ops: &[VkOp],
    order: &Option<Vec<u32>>,
) -> Result<Option<Result<(), OrderEnd>>, AllocError>
    requires { length ops.now < 2 ^ 32 }
    ensures { IfOk result (IsVerdictIf ops.now (option_map (λ v. v.items) order.now)) }
{
    let Some(places) = order else {
        return Ok(None);
    };
    let verdict = allowed_by_index(alloc, ops, places)?;
    Ok(Some(verdict))
}

// The first hazard that is not covered, if there is one.
fn hazard(alloc: Global, ops: &[VkOp]) -> Result<Option<Uncovered>, AllocError>
    requires { length ops.now < 2 ^ 32 }
    ensures { IfOk result (IsHazardIf ops.now) }
{
    let end = covered_by_index(alloc, ops)?;
    Ok(end.err())
}

// The bytes that its first conflicting touches share.
fn shared(ops: &[VkOp], hazard: &Option<Uncovered>) -> Option<Range>
    requires { IsHazardIf ops.now hazard.now }
    ensures shared { result ≡ shared_of ops.now hazard.now }
    ensures bytes { AreShared ops.now hazard.now result }
{
    match hazard {
        Some(pair) => shared_bytes(&ops[pair.first as usize], &ops[pair.second as usize]),
        None => None,
    }
}

fn report_on(alloc: Global, ops: &[VkOp], order: &Option<Vec<u32>>) -> Result<Report, AllocError>
    requires { length ops.now < 2 ^ 32 }
    ensures { IfOk result (Reports ops.now (option_map (λ v. v.items) order.now)) }
{
    let pair = hazard(alloc, ops)?;
    let order = verdict(alloc, ops, order)?;
    Ok(Report {
        pair,
        shared: shared(ops, &pair),
        order,
    })
}

/// Audits a listing's text, which an order's line may stand behind: whether each hazard is covered, and whether the order is
/// allowed.
pub fn audit(alloc: Global, text: &[u8]) -> Result<Report, AuditEnd>
    requires { length text.now ≤ MAX_LISTING }
    ensures report { IfOk result (IsReport text.now) }

    // Where each hazard is covered, the order doesn't matter.
    ensures agree { IfOk result (λ report. report.pair ≡ None → OrdersAgree text.now) }
    ensures bad { IfErr result (BadOnly text.now) }
{
    let (ops, rest) = read_front(alloc, text)?;
    let order = read_last(alloc, rest, ops.len() as u64 + 1)?;
    let report = report_on(alloc, &ops, &order)?;
    Ok(report)
}
