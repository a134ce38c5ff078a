ghost use Rattle.std.specs.Prelude.{◌≡◌, ℕ, true, false, nat_le, List, [], ◌∷◌, ◌++◌, Some};
ghost use Rattle.vk_types.specs.Effects.{Meaning};
ghost use Rattle.core_model.specs.Script.{Script};
ghost use Rattle.core_model.specs.CoreState.{Page, Pool, Core, start};
ghost use Rattle.core_model.specs.Readings.{Any_choices, First_choices, In_threads};
ghost use Rattle.core_model.specs.Placing.{newest_fits, with_length, StagesBytes};
ghost use Rattle.core_model.specs.CoreStep.{Event, Step, CoreStep};
ghost use Rattle.core_model.specs.Free.{FreeSteps, FreeRun};
ghost use Rattle.core_model.specs.Runs.{IsRun};

/// A law of choices. A step with the choices of the core that is stepped is a step with free choices, its Finish one
/// with the steps behind it that bring the blocks home, and its runs are runs of such steps. In threads the pages of a
/// post may have any lengths that suffice: bytes are staged in a page that came back as long as it is then.
pub fn first_choices_are_free()
    ensures step { (meaning : Meaning) (script : Script) (old : Core) (e : Event) (new : Core)
        → Step meaning First_choices script old e new → Step meaning Any_choices script old e new }
    ensures core_step { (meaning : Meaning) (script : Script) (old : Core) (e : Event) (new : Core)
        → CoreStep meaning script old e new → FreeSteps meaning script old e new }
    ensures run { (meaning : Meaning) (script : Script) (schedule : List ℕ) (new : Core)
        → IsRun meaning script schedule new → FreeRun meaning script (start script) new }
    ensures pages { (len long : ℕ) (pool : Pool) (front : List Page) (page : Page) (back : List Page)
        → pool.spare ≡ front ++ page ∷ back → nat_le len long ≡ true → newest_fits len pool.newest ≡ false
        → StagesBytes In_threads len (record { block = page.block; at = 0; added = with_length page long ∷ [] }) pool
        (record pool {
          spare = front ++ back;
          newest = Some (record { page = with_length page long; used = len });
        }) }
{}
