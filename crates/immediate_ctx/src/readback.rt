ghost use Rattle.std.specs.Prelude.{◌≡◌, ℕ, ◌<◌, Bool, Option, Some};
ghost use Rattle.core_model.specs.Script.{Ask};
ghost use Rattle.core_model.specs.CoreState.{Core, Still_said, done};
ghost use Rattle.core_model.specs.Adding.{with_reply};
ghost use Rattle.core_model.specs.AppActs.{Answers, answer};
ghost use Rattle.immediate_ctx.specs.Readback.{readback_of};
ghost use Rattle.immediate_ctx.specs.declared.readback.Readback.TheVariants.{Ready, Waits, Still};

use dx_types::CallNo;

/// What a MapRead or a GetData is told.
#[derive(Clone, Copy, Debug)]
pub enum Readback {
    /// Its last use is finished, or it has none: it is answered.
    Ready,
    /// It waits until this call, its last use, is finished.
    Waits { used: CallNo },
    /// It doesn't wait and is pending: its last use, and the greatest call that is finished.
    Still { used: CallNo, done: CallNo },
}

/// What a call with this last use is told, where `done` is the greatest call that is finished. `may_pend`: it doesn't wait.
pub fn readback_of(used: Option<CallNo>, may_pend: bool, done: CallNo) -> Readback
    ensures { result ≡ readback_of used may_pend done }
{
    match used {
        Some(used) if done < used => pending(used, may_pend, done),
        _ => Readback::Ready,
    }
}

fn pending(used: CallNo, may_pend: bool, done: CallNo) -> Readback
    requires { done < used }
    ensures { result ≡ readback_of (Some used) may_pend done }
{
    if may_pend {
        Readback::Still { used, done }
    } else {
        Readback::Waits { used }
    }
}

/// Laws of these answers: they are the model's. A call that is told to wait can't be answered in that state, and a pending one is told
/// its last use and a lesser call, the greatest that is finished.
pub fn readbacks_as_in_the_model()
    ensures ready { (core : Core) (call : ℕ) (ask : Ask) (used : Option ℕ) (may_pend : Bool)
        → readback_of used may_pend (done core) ≡ Ready → Answers call ask used may_pend core (answer call ask used core) }
    ensures still { (core : Core) (call : ℕ) (ask : Ask) (used : Option ℕ) (may_pend : Bool) (u d : ℕ)
        → readback_of used may_pend (done core) ≡ Still u d
        → (d < u) × (d ≡ done core) × Answers call ask used may_pend core (with_reply (Still_said call u d) core) }
    ensures waits { (core : Core) (call : ℕ) (ask : Ask) (used : Option ℕ) (may_pend : Bool) (u : ℕ)
        → readback_of used may_pend (done core) ≡ Waits u → (new : Core) → Answers call ask used may_pend core new → ⊥ }
{}
