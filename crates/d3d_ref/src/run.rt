ghost use Rattle.std.specs.Prelude.{◌≡◌, ◌++◌, length, IfErr, IfOk, OnOk};
ghost use Rattle.std.specs.Option.{option_to_list};
ghost use Rattle.call_log.specs.Grammar.{calls_of};
ghost use Rattle.d3d_model.specs.ReplyText.{none_pending, replies};
ghost use Rattle.d3d_plan.specs.Ends.{EndsAt, IsPlayable};
ghost use Rattle.d3d_plan.specs.Planned.{plan_of};
ghost use Rattle.d3d_plan.specs.Verdicts.{refusal_of};

use crate::Machine;
use call_log::Log;
use d3d_plan::{Plan, PlanEnd, Verdict, make_plan};
use dx_types::{Refusal, Reply};
use std::alloc::{AllocError, Global};

/// What a run of a log in order says: one call at a time, each readback and each query answered.
pub fn reference(alloc: Global, log: &Log<'_>) -> Result<Vec<Reply>, PlanEnd>
    ensures replies { IfOk result (λ said. said.items ≡ replies (calls_of log.now.frames) none_pending) }
    ensures playable { OnOk result (IsPlayable log.now.frames) }
    ensures ends { IfErr result (λ e. EndsAt log.now.frames e) }
{
    let plan = match make_plan(alloc, log) {
        Ok(plan) => plan,
        Err(end) => return Err(end),
    };
    match play_all(alloc, log, &plan) {
        Ok(said) => Ok(said),
        Err(_) => Err(PlanEnd::NoMemory),
    }
}

fn refusal(verdict: Verdict) -> Option<Refusal>
    ensures { result ≡ refusal_of verdict }
{
    match verdict {
        Verdict::Go => None,
        Verdict::Refused(why) => Some(why),
    }
}

fn say(said: &mut Vec<Reply>, reply: Option<Reply>) -> Result<(), AllocError>
    ensures { OnOk result (said.new.items ≡ said.old.items ++ option_to_list reply) }
{
    if let Some(reply) = reply {
        said.push(reply)?;
    }
    Ok(())
}

/// Plays each call by its verdict.
fn play_all(alloc: Global, log: &Log<'_>, plan: &Plan) -> Result<Vec<Reply>, AllocError>
    requires plan { plan.now ≡ plan_of (calls_of log.now.frames) (length log.now.frames) }
    requires playable { IsPlayable log.now.frames }
    ensures { IfOk result (λ said. said.items ≡ replies (calls_of log.now.frames) none_pending) }
{
    let mut machine = Machine::new(alloc)?;
    let mut said = Vec::new(alloc);
    'calls: for i in 0..log.count() {
        let n = i + 1;
        let reply = machine.play(alloc, log, n, refusal(plan.verdict(n)), plan.shader(n))?;
        say(&mut said, reply)?;
    }
    said.push(Reply::Finished { calls: log.count() })?;
    Ok(said)
}
