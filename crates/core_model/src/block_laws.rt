ghost use Rattle.std.specs.Prelude.{◌≡◌, ℕ, suc, ◌≤◌, true, false, Some, List, [], ◌∷◌, ◌++◌, length};
ghost use Rattle.std.specs.List.{AllByRecursion};
ghost use Rattle.vk_types.specs.declared.message.Placed.{Placed};
ghost use Rattle.vk_types.specs.Effects.{Meaning, act_touches};
ghost use Rattle.core_model.specs.Script.{Script};
ghost use Rattle.core_model.specs.CoreState.{Segment, Running, Message, Page, Core, marks, of_messages};
ghost use Rattle.core_model.specs.CoreState.{of_running, finished_count, on_device};
ghost use Rattle.core_model.specs.Batching.{made};
ghost use Rattle.core_model.specs.Holding.{completed_count, placed_by, device_holds};
ghost use Rattle.core_model.specs.Spine.{has_place, gives_up, EndsInBlock};
ghost use Rattle.core_model.specs.Adding.{has_block};
ghost use Rattle.core_model.specs.Readings.{Reading};
ghost use Rattle.core_model.specs.OtherParts.{is_among, used_in, needed_in};
ghost use Rattle.core_model.specs.CoreStep.{App, Finish, Step};
ghost use Rattle.core_model.specs.Succession.{Log, only_class};
ghost use Rattle.core_model.specs.Messages.{heads};
ghost use Rattle.core_model.specs.Stands.{may_touch};
ghost use Rattle.core_model.specs.Marked.{IsOff, all_messages, IsMarkedBy, IsReturning};
ghost use Rattle.core_model.specs.Reached.{IsReached};

/// The law of what App takes, of a lawful script, in every state that steps reach from the start, in each reading. A
/// block that an App step takes, for a buffer that is created or discarded, is no live buffer's, so that a discard
/// takes another than its buffer had; and before the step no command that was not finished touched it. Nor did one
/// touch a page that the step takes.
pub fn taken_blocks_are_idle()
    ensures strange { (meaning : Meaning) (reading : Reading) (script : Script) (old : Core)
        → IsReached meaning reading script old
        → (posts : ℕ) (new : Core) → Step meaning reading script old (App posts) new
        → (place : Placed) → new.open_chunk.placed ≡ old.open_chunk.placed ++ place ∷ []
        → (block : ℕ) → place.block ≡ Some block → (buffer : ℕ) → old.blocks buffer ≡ Some block → ⊥ }
    ensures idle { (meaning : Meaning) (reading : Reading) (script : Script) (old : Core)
        → IsReached meaning reading script old
        → (posts : ℕ) (new : Core) → Step meaning reading script old (App posts) new
        → (place : Placed) → new.open_chunk.placed ≡ old.open_chunk.placed ++ place ∷ []
        → (block : ℕ) → place.block ≡ Some block → may_touch old block ≡ false }
    ensures pages { (meaning : Meaning) (reading : Reading) (script : Script) (old : Core)
        → IsReached meaning reading script old
        → (posts : ℕ) (new : Core) → Step meaning reading script old (App posts) new
        → (page : Page) → new.open_chunk.pages ≡ old.open_chunk.pages ++ page ∷ []
        → may_touch old page.block ≡ false }
{}

/// The law of marks. A block that a chunk gave up, until a buffer takes it again, is named by a mark of that chunk's
/// message, and no item took it since, so a recorder that compares what it takes with its own marks drops no block. A
/// Finish sends home exactly the blocks of a class that its message marks. And a message has the copy of each staging
/// block that its chunk names, where no later chunk that the device has binds the block, so a recorder that asks for
/// them drops no message; nor is it missing where a later chunk binds the block, and neither names it as a staging
/// buffer's nor touches it by a host write or a command.
pub fn marked_blocks_come_home()
    ensures marked { (meaning : Meaning) (reading : Reading) (script : Script) (core : Core)
        → IsReached meaning reading script core
        → (b n : ℕ) → IsOff n (core.owner b) → IsMarkedBy (all_messages core) b n }
    ensures homes { (meaning : Meaning) (reading : Reading) (script : Script) (old : Core)
        → IsReached meaning reading script old
        → (new : Core) → Step meaning reading script old Finish new → (m : Message) (ms : List Message)
        → old.completions ≡ m ∷ ms → (b : ℕ)
        → (IsReturning (suc (finished_count old)) (new.owner b) → is_among b (only_class (marks m.segment)) ≡ true)
        × (is_among b (only_class (marks m.segment)) ≡ true → IsReturning (suc (finished_count old)) (new.owner b)) }
    ensures copies { (meaning : Meaning) (reading : Reading) (script : Script) (core : Core)
        → IsReached meaning reading script core
        → (earlier : List Message) (m : Message) (others : List Message)
        → core.posts ++ core.completions ≡ earlier ++ m ∷ others
        → (b : ℕ) → has_block b m.segment.staging ≡ true → used_in (of_messages others ++ of_running core.accepted)
        b ≡ false
        → (bytes : ℕ → ℕ) × (m.snaps b ≡ Some bytes) }
    ensures needed { (meaning : Meaning) (reading : Reading) (script : Script) (core : Core)
        → IsReached meaning reading script core
        → (earlier : List Message) (m : Message) (others : List Message)
        → core.posts ++ core.completions ≡ earlier ++ m ∷ others
        → (b : ℕ) → has_block b m.segment.staging ≡ true → needed_in
        (of_messages others ++ of_running core.accepted) b ≡ false
        → (bytes : ℕ → ℕ) × (m.snaps b ≡ Some bytes) }
{}

/// The law of what the device holds, of a lawful script, in every state that steps reach from the start, in each
/// reading. The submission that it accepts next takes only blocks that it doesn't hold, and stages bytes only in pages
/// that it doesn't hold. And it holds every block that a command touches which is left to run, every block to which the
/// host writes a part for a chunk that was not completed, and every block that such a chunk gives up. What is left to
/// run, and each part, ends inside its block: a page, as far as its chunk staged bytes there, or a block as long as it
/// was when an item of a chunk took it, behind which no chunk that the device accepted took it again.
pub fn device_holds_what_it_uses()
    ensures next { (meaning : Meaning) (reading : Reading) (script : Script) (core : Core)
        → IsReached meaning reading script core
        → (s : Segment) (ss : List Segment) → core.submissions ≡ s ∷ ss
        → (block : ℕ) → has_place block s.placed ≡ true → device_holds core block ≡ false }
    ensures left { (meaning : Meaning) (reading : Reading) (script : Script) (core : Core)
        → IsReached meaning reading script core
        → (front : List Running) (r : Running) (back : List Running) → core.accepted ≡ front ++ r ∷ back
        → AllByRecursion (λ x. AllByRecursion (λ touch. device_holds core touch.range.block ≡ true)
        (act_touches x.act)) r.rest }
    ensures parts { (meaning : Meaning) (reading : Reading) (script : Script) (core : Core)
        → IsReached meaning reading script core
        → (front : List Segment) (s : Segment) (back : List Segment) → on_device core ≡ front ++ s ∷ back
        → completed_count core ≤ length front
        → AllByRecursion (λ written. device_holds core written.range.block ≡ true)
        (made script (placed_by (front ++ s ∷ []))).writes }
    ensures marks { (meaning : Meaning) (reading : Reading) (script : Script) (core : Core)
        → IsReached meaning reading script core
        → (front : List Segment) (s : Segment) (back : List Segment) → on_device core ≡ front ++ s ∷ back
        → completed_count core ≤ length front
        → (block : ℕ) → gives_up block s.placed ≡ true → device_holds core block ≡ true }
    ensures left_ends { (log : Log) (reading : Reading) (core : Core) → IsReached log.meaning reading log.script core
        → (front : List Running) (r : Running) (back : List Running) → core.accepted ≡ front ++ r ∷ back
        → AllByRecursion (λ x. AllByRecursion
        (λ touch. EndsInBlock log (heads (on_device core)) r.segment.placed touch.range) (act_touches x.act)) r.rest }
    ensures parts_end { (log : Log) (reading : Reading) (core : Core) → IsReached log.meaning reading log.script core
        → (front : List Segment) (s : Segment) (back : List Segment) → on_device core ≡ front ++ s ∷ back
        → completed_count core ≤ length front
        → AllByRecursion (λ written. EndsInBlock log (heads (on_device core)) s.placed written.range)
        (made log.script (placed_by (front ++ s ∷ []))).writes }
{}
