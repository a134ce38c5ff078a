ghost use Rattle.std.specs.Prelude.{◌≡◌, ℕ, ◌+◌, ◌<◌, ◌≤◌, true, false, List, [], length, Option, None, ◌⊎◌};
ghost use Rattle.vk_types.specs.Covered.{Covered};
ghost use Rattle.vk_types.specs.Effects.{Meaning};
ghost use Rattle.vk_types.specs.Entries.{EntriesKeep, run_entries};
ghost use Rattle.vk_types.specs.Listing.{acts};
ghost use Rattle.vk_types.specs.Allowed.{IsAllowed, outcome};
ghost use Rattle.base_lemmas.specs.Lists.{IsReordering};
ghost use Rattle.vk_types.specs.Memory.{zeros};
ghost use Rattle.vk_types.specs.RunListing.{IsRunListing};
ghost use Rattle.core_model.specs.Script.{Script};
ghost use Rattle.core_model.specs.CoreState.{Returning, Core, start, flat, taken_count, handed_count};
ghost use Rattle.core_model.specs.Readings.{Reading};
ghost use Rattle.core_model.specs.CoreStep.{Event, Come_home, Step, CoreStep};
ghost use Rattle.core_model.specs.Free.{FreeRun};
ghost use Rattle.core_model.specs.Runs.{Actor, IsEnabled, settling, FirstEnabled, IsRun, pending};
ghost use Rattle.core_model.specs.Ends.{distance, CoreChain, Posts, IsWhole};
ghost use Rattle.core_model.specs.Lawful.{IsLawful};
ghost use Rattle.core_model.specs.Invariant.{commands_of};
ghost use Rattle.core_model.specs.Reached.{IsReached, IsStepped};

/// The core that is stepped comes to an end, and by one way. Each step comes nearer to the end, so that no more steps
/// can be done than the script costs. In each state that its steps reach it is decided what each part can do, and
/// until the end some settling event can. So each schedule has a run, and two runs of a schedule end in the same
/// state, with the same replies, listing, order and memory. Without a schedule no call is answered as pending.
pub fn runs_end()
    ensures nearer { (meaning : Meaning) (script : Script) (old : Core) (e : Event) (new : Core)
        → CoreStep meaning script old e new → distance new < distance old }
    ensures bounded { (meaning : Meaning) (script : Script) (events : List Event) (core : Core)
        → CoreChain meaning script (start script) events core
        → length events + distance core ≤ distance (start script) }
    ensures decided { (meaning : Meaning) (script : Script) (core : Core) → IsStepped meaning script core
        → (a : Actor) → IsEnabled meaning script core a ⊎ (IsEnabled meaning script core a → ⊥) }
    ensures enabled { (meaning : Meaning) (script : Script) (core : Core) → IsStepped meaning script core
        → core.ended ≡ false
        → (new : Core) × FirstEnabled meaning script core settling new }
    ensures exists { (meaning : Meaning) (script : Script) → IsLawful meaning script
        → (schedule : List ℕ) → (core : Core) × IsRun meaning script schedule core }
    ensures once { (meaning : Meaning) (script : Script) (old : Core) (e : Event) (a b : Core)
        → CoreStep meaning script old e a → CoreStep meaning script old e b → a ≡ b }
    ensures one { (meaning : Meaning) (script : Script) (schedule : List ℕ) (a b : Core)
        → IsRun meaning script schedule a → IsRun meaning script schedule b → a ≡ b }
    ensures none_pending { (meaning : Meaning) (script : Script) → IsLawful meaning script
        → (core : Core) → IsRun meaning script [] core → (n : ℕ) → pending core n ≡ None }
{}

/// At the end nothing is on its way, in each reading and by any choices: each chunk of the script was posted and each
/// post taken, the open chunk has nothing, and all turns were taken. So each command of the chunks was run once, in
/// an order that keeps what is ordered, and the device holds what the listing's order leaves. The listing is whole as
/// it stands: it is a run's, it is covered, and every order that it allows leaves the memory, and gives the host the
/// bytes, that its own order does. And each run has ended.
pub fn ends_are_whole()
    ensures whole { (meaning : Meaning) (reading : Reading) (script : Script) (core : Core)
        → IsReached meaning reading script core → core.ended ≡ true
        → IsWhole script core }
    ensures each_once { (meaning : Meaning) (reading : Reading) (script : Script) (core : Core)
        → IsReached meaning reading script core → core.ended ≡ true
        → IsReordering (commands_of core.taken) core.ran × EntriesKeep core.ran }
    ensures memory { (meaning : Meaning) (reading : Reading) (script : Script) (core : Core)
        → IsReached meaning reading script core → core.ended ≡ true
        → core.memory ≡ run_entries meaning (flat core.taken) zeros }
    ensures listing { (meaning : Meaning) (reading : Reading) (script : Script) (core : Core)
        → IsReached meaning reading script core → core.ended ≡ true
        → IsRunListing core.is_staging core.listing × Covered core.listing }
    ensures orders { (meaning : Meaning) (reading : Reading) (script : Script) (core : Core)
        → IsReached meaning reading script core → core.ended ≡ true
        → (order : List ℕ) → IsAllowed core.listing order
        → outcome meaning core.contents core.listing order ≡ outcome meaning core.contents core.listing
        (acts core.listing) }
    ensures runs { (meaning : Meaning) (script : Script) (schedule : List ℕ) (core : Core)
        → IsRun meaning script schedule core
        → (core.ended ≡ true) × FreeRun meaning script (start script) core }
{}

/// What the parts can do for App, of a lawful script, in every state that steps reach from the start, in each
/// reading, in threads too. While a chunk was handed over whose post App did not take, steps of the other parts lead
/// to a post that App can take; and a block on its way home finds a place.
pub fn chunks_can_finish()
    ensures posts { (meaning : Meaning) (reading : Reading) (script : Script) (core : Core)
        → IsReached meaning reading script core → taken_count core < handed_count core
        → Posts meaning reading script core }
    ensures homes { (meaning : Meaning) (reading : Reading) (script : Script) (core : Core)
        → IsReached meaning reading script core
        → (block k : ℕ) → core.owner block ≡ Returning k → (place : ℕ) × (new : Core)
        × Step meaning reading script core (Come_home block place) new }
{}
