ghost use Rattle.std.specs.Prelude.{◌≡◌, ◌<◌, ◌^◌, length, IfErr, IfOk, IsTrue, OnOk};
ghost use Rattle.call_log.specs.Body.{call_of, fits};
ghost use Rattle.call_log.specs.Grammar.{calls_of};
ghost use Rattle.call_log.specs.Put.{body_length};
ghost use Rattle.d3d_plan.specs.Ends.{EndsAt, IsPlayable};
ghost use Rattle.d3d_plan.specs.Planned.{plan_of};

use crate::kept::Kept;
use crate::scan::first_draw;
use crate::step::Planner;
use crate::tables::Tables;
use crate::{Plan, PlanEnd};
use call_log::Log;
use std::alloc::{AllocError, Global};

/// The plan of a log. It costs a logarithm a call and a range that it binds; a list that is finished costs what is kept of it.
pub fn make_plan(alloc: Global, log: &Log<'_>) -> Result<Plan, PlanEnd>
    ensures planned { IfOk result (λ p. p ≡ plan_of (calls_of log.now.frames) (length log.now.frames)) }
    ensures playable { OnOk result (IsPlayable log.now.frames) }
    ensures ends { IfErr result (λ e. EndsAt log.now.frames e) }
{
    if let Some((n, kind)) = first_draw(log) {
        return Err(PlanEnd::Unsupported { n, kind });
    }
    let plan = plan_calls(alloc, log)?;
    Ok(plan)
}

/// The plan of a log without draws.
fn plan_calls(alloc: Global, log: &Log<'_>) -> Result<Plan, AllocError>
    requires { IsPlayable log.now.frames }
    ensures { IfOk result (λ p. p ≡ plan_of (calls_of log.now.frames) (length log.now.frames)) }
{
    let mut planner = Planner::new(alloc)?;
    'calls: for i in 0..log.count() {
        let Some(item) = log.item(i + 1) else {
            unreachable!();
        };
        says_its_length(item.kind, item.body);
        planner.plan_call(alloc, i + 1, item.at, item.context, &item.call())?;
    }
    let Planner {
        entries,
        kept,
        objects: _,
    } = planner;
    Ok(Plan::new(entries, tables_of(kept)))
}

fn tables_of(kept: Kept) -> Tables
    ensures { result ≡ kept.tables }
{
    let Kept {
        tables,
        alloc: _,
        uses: _,
        opened: _,
        lists: _,
    } = kept;
    tables
}

// A record's body is as long as its call says.
fn says_its_length(kind: u16, body: &[u8])
    requires whole { IsTrue (fits kind body.now) }
    requires small { length body.now < 2 ^ 32 }
    ensures { body_length (call_of kind body.now) ≡ length body.now }
{
    let _kind = kind;
    let _body = body;
}
