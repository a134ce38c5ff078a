//! Laws of the device over the messages that it takes and gives, for every state that its calls lead to.
#![tactic(auto)]

ghost use Rattle.std.specs.Prelude.{◌≡◌, ℕ, suc, ◌++◌, ◌∷◌, [], List, Option, drop, true};
ghost use Rattle.std.specs.List.{AllByRecursion};
ghost use Rattle.vk_types.specs.declared.message.Batch.{Batch};
ghost use Rattle.vk_types.specs.declared.message.Completion.{Completion};
ghost use Rattle.vk_types.specs.Effects.{Meaning};
ghost use Rattle.vk_types.specs.Memory.{Memory, zeros};
ghost use Rattle.core_model.specs.Succession.{Log};
ghost use Rattle.command_queue.specs.Left.{LeftApart, left};
ghost use Rattle.vk_device.specs.Accepting.{Accepts, IsNext, can_accept};
ghost use Rattle.vk_device.specs.Completing.{Completes};
ghost use Rattle.vk_device.specs.Running.{Runs};
ghost use Rattle.vk_device.specs.State.{State, no_state};
ghost use Rattle.device_laws.specs.Holding.{Holds, MayGiveUp};
ghost use Rattle.device_laws.specs.InOrder.{AreOrdered, DoesAsMeant, IsCopyIn, LeadsTo, Spare, after_batch, gone_with, host_bytes, without_blocks};
ghost use Rattle.device_laws.specs.Standing.{AllFollow, IsOf, MayFollow, Stands, ops_in};

/// A law of all that a device does. It stands for the batches that it accepted and completed: the commands that it ran and those
/// that are left are the commands of all that it accepted, each once, whichever ready commands were run. And each completion is of
/// the oldest batch that it holds.
pub fn each_command_runs_once()
    ensures first { Stands [] 0 no_state }
    ensures accepted { (log : List ℕ) (batches : List Batch) (completed : ℕ) (b : Batch) (old new : State)
        → Stands batches completed old → IsNext log b old → Accepts log b old new → Stands (batches ++ b ∷ []) completed new }
    ensures run { (batches : List Batch) (completed j : ℕ) (words : Option (List ℕ)) (old new : State)
        → Stands batches completed old → Runs j words old new → Stands batches completed new }
    ensures completed { (batches : List Batch) (completed : ℕ) (c : Completion) (old new : State)
        → Stands batches completed old → Completes old c new → IsOf batches completed c × Stands batches (suc completed) new }
{}

/// A law of the blocks that a device holds: those that a batch took or brought, and none that was given up or went back. It asks
/// of each batch that it gives up blocks that are taken, and that no other batch gives up which isn't completed.
pub fn blocks_are_held_until_given_up()
    ensures first { Holds [] 0 no_state }
    ensures accepted { (log : List ℕ) (batches : List Batch) (completed : ℕ) (b : Batch) (old new : State)
        → Stands batches completed old → Holds batches completed old → can_accept old b.blocks.items b.pages.items ≡ true → IsNext log b old
        → Accepts log b old new → MayGiveUp batches completed b → Holds (batches ++ b ∷ []) completed new }
    ensures run { (batches : List Batch) (completed j : ℕ) (words : Option (List ℕ)) (old new : State)
        → Holds batches completed old → Runs j words old new → Holds batches completed new }
    ensures completed { (batches : List Batch) (completed : ℕ) (c : Completion) (old new : State)
        → Stands batches completed old → Holds batches completed old → Completes old c new → Holds batches (suc completed) new }
{}

/// A law of completions. Where each accepted batch may stand behind those before it, a completion has the number, the last call,
/// the places and the operations of one that may stand there.
pub fn completions_keep_their_batches()
    ensures { (log : Log) (batches : List Batch) (completed : ℕ) (c : Completion) → AllFollow log batches → (is : IsOf batches completed c)
        → MayFollow log is.front c }
{}

/// A law of the bytes that a device holds. At every moment the commands that are left, run in order on what is held, make what all
/// batches make one after another in order, whichever ready commands were run. It asks that barriers order the conflicting commands
/// of the batches that are held, that each dispatch is run with a module that means its shader, and that no command that is left
/// touches what the host writes for the next batch or what goes with a completion. Then a completion's copies have the bytes of
/// that order too.
pub fn what_is_left_completes_what_is_held()
    ensures first { (meaning : Meaning) → LeadsTo meaning no_state zeros }
    ensures accepted { (meaning : Meaning) (log : List ℕ) (batches : List Batch) (completed : ℕ) (b : Batch) (old new : State) (m : Memory)
        → Stands batches completed old → LeadsTo meaning old m → can_accept old b.blocks.items b.pages.items ≡ true → IsNext log b old
        → Accepts log b old new → AreOrdered (ops_in (drop completed (batches ++ b ∷ []))) → LeftApart (left old.steps) (host_bytes log b)
        → LeadsTo meaning new (after_batch meaning log b m) }
    ensures run { (meaning : Meaning) (j : ℕ) (words : Option (List ℕ)) (old new : State) (m : Memory)
        → LeadsTo meaning old m → (is : Runs j words old new) → DoesAsMeant meaning words is.is.command → LeadsTo meaning new m }
    ensures completed { (meaning : Meaning) (c : Completion) (old new : State) (m : Memory)
        → LeadsTo meaning old m → (is : Completes old c new) → Spare (left old.steps) (gone_with old is.batch)
        → LeadsTo meaning new (without_blocks (gone_with old is.batch) m) }
    ensures copies { (meaning : Meaning) (c : Completion) (old new : State) (m : Memory)
        → LeadsTo meaning old m → (is : Completes old c new) → AllByRecursion (IsCopyIn m is.batch.staging.items) c.snaps.items }
{}
