ghost use Rattle.std.specs.Prelude.{◌≡◌, ◌≤◌, length, None, IfOk, OnOk, OnErr};
ghost use Rattle.call_log.specs.Grammar.{calls_of};
ghost use Rattle.d3d_model.specs.InOrder.{before_call, after_calls};
ghost use Rattle.d3d_model.specs.ReplyText.{none_pending, reply_at};
ghost use Rattle.d3d_plan.specs.Verdicts.{refusal_of};
ghost use Rattle.core_machine.specs.Keeping.{IsPlanned, StandsFor};

use call_log::Log;
use d3d_plan::{Plan, Verdict};
use d3d_ref::Machine;
use dx_types::{CallNo, Refusal, Reply};
use std::alloc::{AllocError, Global};

/// Plays call n of a log by its plan: what a run says of it. The state is lost where memory runs out in the middle.
pub(crate) fn play_call<'a>(
    alloc: Global,
    log: &'a Log<'_>,
    plan: &Plan,
    n: CallNo,
    machine: &mut Option<Machine<'a>>,
) -> Result<Option<Reply>, AllocError>
    requires first { 1 ≤ n }
    requires last { n ≤ length log.now.frames }
    requires plan { IsPlanned log.now.frames plan.now }
    requires stands { StandsFor machine.old (before_call (calls_of log.now.frames) n) }
    ensures reply { IfOk result (λ reply. reply ≡ reply_at (calls_of log.now.frames) none_pending n) }
    ensures stands { OnOk result (StandsFor machine.new (after_calls (calls_of log.now.frames) n)) }
    ensures lost { OnErr result (machine.new ≡ None) }
{
    let Some(mut state) = machine.take() else {
        return Err(AllocError);
    };
    let reply = state.play(alloc, log, n, refusal(plan.verdict(n)), plan.shader(n))?;
    *machine = Some(state);
    Ok(reply)
}

/// Plays call n as a command, of which nothing is said.
pub(crate) fn play_command<'a>(
    alloc: Global,
    log: &'a Log<'_>,
    plan: &Plan,
    n: CallNo,
    machine: &mut Option<Machine<'a>>,
) -> Result<(), AllocError>
    requires first { 1 ≤ n }
    requires last { n ≤ length log.now.frames }
    requires plan { IsPlanned log.now.frames plan.now }
    requires stands { StandsFor machine.old (before_call (calls_of log.now.frames) n) }
    ensures stands { OnOk result (StandsFor machine.new (after_calls (calls_of log.now.frames) n)) }
    ensures lost { OnErr result (machine.new ≡ None) }
{
    play_call(alloc, log, plan, n, machine)?;
    Ok(())
}

fn refusal(verdict: Verdict) -> Option<Refusal>
    ensures { result ≡ refusal_of verdict }
{
    match verdict {
        Verdict::Go => None,
        Verdict::Refused(why) => Some(why),
    }
}
