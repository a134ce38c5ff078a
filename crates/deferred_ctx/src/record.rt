ghost use Rattle.std.specs.Prelude.{◌≡◌, ◌≤◌, true, length, IfOk};
ghost use Rattle.call_log.specs.Grammar.{calls_of};
ghost use Rattle.d3d_plan.specs.Planned.{plan_of};
ghost use Rattle.call_log.specs.View.{call_view};
ghost use Rattle.d3d_plan.specs.Verdicts.{refusal_of};
ghost use Rattle.deferred_ctx.specs.Lists.{finishes, finishes_unless, list_made, lists_made};

use crate::List;
use call_log::{Call, Log};
use d3d_plan::{Plan, Verdict};
use dx_types::CallNo;
use std::alloc::{AllocError, Global};

/// The list that call n of the log makes, an accepted FinishList: the calls that its context recorded since the list before.
pub fn record_list(alloc: Global, log: &Log<'_>, plan: &Plan, n: CallNo) -> Result<List, AllocError>
    requires plan { plan.now ≡ plan_of (calls_of log.now.frames) (length log.now.frames) }
    requires finishes { finishes (calls_of log.now.frames) n ≡ true }
    ensures { IfOk result (λ list. list ≡ list_made (calls_of log.now.frames) n) }
{
    let _log = log;
    List::new(alloc, n, plan.segment(n))
}

/// The lists of a log, in order of the calls that make them.
pub fn record_each(alloc: Global, log: &Log<'_>, plan: &Plan) -> Result<Vec<List>, AllocError>
    requires plan { plan.now ≡ plan_of (calls_of log.now.frames) (length log.now.frames) }
    ensures { IfOk result (λ lists. lists.items ≡ lists_made (calls_of log.now.frames) (length log.now.frames)) }
{
    let mut lists = Vec::new(alloc);
    'calls: for i in 0..log.count() {
        let n = i + 1;
        if finishes(log, plan, n) {
            lists.push(record_list(alloc, log, plan, n)?)?;
        }
    }
    Ok(lists)
}

// Whether call n is an accepted FinishList.
fn finishes(log: &Log<'_>, plan: &Plan, n: CallNo) -> bool
    requires plan { plan.now ≡ plan_of (calls_of log.now.frames) (length log.now.frames) }
    requires first { 1 ≤ n }
    requires last { n ≤ length log.now.frames }
    ensures { result ≡ finishes (calls_of log.now.frames) n }
{
    let Some(item) = log.item(n) else {
        unreachable!();
    };
    finishes_by(&item.call(), plan.verdict(n))
}

// Whether a call finishes a list, by its verdict.
fn finishes_by(call: &Call<'_>, verdict: Verdict) -> bool
    ensures { result ≡ finishes_unless (call_view call.now) (refusal_of verdict) }
{
    match verdict {
        Verdict::Go => matches!(call, Call::FinishList { .. }),
        Verdict::Refused(_) => false,
    }
}
