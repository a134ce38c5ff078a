ghost use Rattle.std.specs.Prelude.{◌≡◌, ℕ, true, List, ◌++◌};
ghost use Rattle.std.specs.List.{flat_map};
ghost use Rattle.dx_types.specs.declared.reply.Reply.{Reply};
ghost use Rattle.call_log.specs.Call.{Issued};
ghost use Rattle.base_lemmas.specs.IdMap.{get};
ghost use Rattle.d3d_model.specs.ReplyText.{lines, replies, text};
ghost use Rattle.core_model.specs.CoreState.{Core, start};
ghost use Rattle.core_model.specs.CoreStep.{Event, Chain};
ghost use Rattle.core_model.specs.Readings.{Reading};
ghost use Rattle.core_model.specs.Runs.{IsRun, pending};
ghost use Rattle.log_script.specs.LogScript.{meaning_of, script_of};
ghost use Rattle.log_script.specs.RunText.{reply_said, pending_map};

/// A run, by any schedule, says exactly what in-order Direct3D says of the log, where the calls that the run has
/// answered as pending are pending. So it is at the end in each reading, whatever the parts chose; and before the end
/// what was said is the front of such a text.
pub fn every_run_writes_the_text()
    ensures replies { (log : List Issued) (schedule : List ℕ) (core : Core)
        → IsRun (meaning_of log) (script_of log) schedule core
        → flat_map (reply_said log) core.replies ≡ replies log (pending_map core.replies) }
    ensures pending { (log : List Issued) (schedule : List ℕ) (core : Core)
        → IsRun (meaning_of log) (script_of log) schedule core
        → (n : ℕ) → get (pending_map core.replies) n ≡ pending core n }
    ensures text { (log : List Issued) (schedule : List ℕ) (core : Core)
        → IsRun (meaning_of log) (script_of log) schedule core
        → lines (flat_map (reply_said log) core.replies) ≡ text log (pending_map core.replies) }
    ensures chains { (log : List Issued) (reading : Reading) (events : List Event) (core : Core)
        → Chain (meaning_of log) reading (script_of log) (start (script_of log)) events core → core.ended ≡ true
        → flat_map (reply_said log) core.replies ≡ replies log (pending_map core.replies) }
    ensures so_far { (log : List Issued) (reading : Reading) (events : List Event) (core : Core)
        → Chain (meaning_of log) reading (script_of log) (start (script_of log)) events core
        → (more : List Reply)
        × (replies log (pending_map core.replies) ≡ flat_map (reply_said log) core.replies ++ more) }
{}
