ghost use Rattle.std.specs.Prelude.{◌≡◌, ℕ, List, [], ◌∷◌, ◌++◌, length};
ghost use Rattle.std.specs.List.{AllByRecursion, flat_map};
ghost use Rattle.call_log.specs.Call.{Issued};
ghost use Rattle.core_model.specs.CoreState.{Said, End_said, Core, start};
ghost use Rattle.core_model.specs.Readings.{Reading};
ghost use Rattle.core_model.specs.CoreStep.{Event, Chain};
ghost use Rattle.core_model.specs.Runs.{IsRun};
ghost use Rattle.log_script.specs.LogScript.{meaning_of, script_of};
ghost use Rattle.log_script.specs.Said.{said_call, answering, replying};

/// A run leaves out no call of which in-order Direct3D says something, says something of no other, keeps their order,
/// and says last that it has ended. What it says of a call is the matter of other laws.
pub fn every_run_says_all()
    // in every state that steps reach from the start, in each reading: what was said is of the turns so far, in order
    ensures so_far { (log : List Issued) (reading : Reading) (events : List Event) (core : Core)
        → Chain (meaning_of log) reading (script_of log) (start (script_of log)) events core
        → flat_map said_call core.replies ≡ answering core.past }
    // a run, by any schedule, says something of exactly the calls of which Direct3D does, each once, in order, and
    // then that it has ended
    ensures runs { (log : List Issued) (schedule : List ℕ) (core : Core)
        → IsRun (meaning_of log) (script_of log) schedule core
        → (flat_map said_call core.replies ≡ replying log (length log))
        × ((front : List Said) × (core.replies ≡ front ++ End_said ∷ [])
        × AllByRecursion (λ said. said ≡ End_said → ⊥) front) }
{}
