ghost use Rattle.std.specs.Prelude.{◌≡◌, ℕ, suc, ◌<◌, ◌≤◌, Bool, true, false, List, [], ◌∷◌, ◌++◌, length, map};
ghost use Rattle.std.specs.Prelude.{Some};
ghost use Rattle.std.specs.List.{AllByRecursion};
ghost use Rattle.vk_types.specs.Hazards.{touches, host_write_touch, lists_conflict};
ghost use Rattle.vk_types.specs.Memory.{Memory};
ghost use Rattle.vk_types.specs.declared.message.Placed.{Placed};
ghost use Rattle.base_lemmas.specs.Lists.{Pairwise, numbers_from};
ghost use Rattle.vk_types.specs.RunListing.{IsRunListing, SameOrder};
ghost use Rattle.core_model.specs.Script.{Turn, Script};
ghost use Rattle.core_model.specs.Batching.{made, batch_ops};
ghost use Rattle.core_model.specs.BatchActs.{batch_acts, run_acts};
ghost use Rattle.core_model.specs.Chunking.{chunk_turns, upto, after_chunk};
ghost use Rattle.core_model.specs.Stands.{Stands};
ghost use Rattle.core_model.specs.Succession.{Head, Log, takes, stages_in, all_places, staged_ranges, places_in};
ghost use Rattle.core_model.specs.Succession.{turns_upto, values_after};
ghost use Rattle.core_model.specs.Adding.{length_of};
ghost use Rattle.core_model.specs.Formed.{WorkIsFormed, CondIsFormed};
ghost use Rattle.core_model.specs.Lawful.{IsLawful};
ghost use Rattle.core_model.specs.Spine.{Succeeds, made_of, MayUse, IsInside, IsLong, IsHeldBy, holds_block, gives_up};
ghost use Rattle.core_model.specs.Spine.{TakesUnheld, EndsInBlock};
ghost use Rattle.core_model.specs.BatchOrder.{IsBatchListing, ops_of, staging_at, queries_of};
ghost use Rattle.core_model.specs.OtherParts.{created, needed, is_among, values_between};
ghost use Rattle.core_model.specs.Queries.{commands_in, marks_from, count_in_order, AreInTurn};

/// The law of the batches of messages, whatever places these have. Their operations, batch behind batch, are a
/// listing that has the barriers which its hazards cause and no others, numbers its submits and keeps each batch
/// whole; the barrier to the host goes by the staging buffers' blocks as the batch is made, and where these stay the
/// same it is a run's listing. So of two commands the one is ordered before the other, by masks, exactly where more
/// barriers before commands stand before the other.
pub fn batches_are_ordered()
    ensures listing { (script : Script) (places : List (List Placed))
        → IsBatchListing (staging_at script places) (ops_of script places) }
    ensures steady { (staging : ℕ → Bool) (script : Script) (places : List (List Placed))
        → ((k b : ℕ) → staging_at script places (suc k) b ≡ staging b) → IsRunListing staging (ops_of script places) }
    ensures alike { (script : Script) (places : List (List Placed)) (contents : List (List ℕ))
        → SameOrder contents (ops_of script places) }
    ensures one_more { (script : Script) (front : List (List Placed)) (here : List Placed)
        → ops_of script (front ++ here ∷ [])
        ≡ ops_of script front ++ batch_ops (made script (front ++ here ∷ [])) (suc (length front)) }
{}

/// The law of what a message uses, in every succession of a lawful script's messages. The commands that its items
/// make, and the host writes, are on blocks that it took, on those where it staged bytes, and on blocks of buffers
/// that lived before it, and end inside these; and the buffers that live behind it have such blocks. The commands are
/// ones that a device can do: lengths agree, words are whole, slots rise, and of two slots of one block none may be
/// written.
pub fn messages_use_their_blocks()
    ensures commands { (log : Log) → IsLawful log.meaning log.script → (front : List Head) (here : Head)
        → Succeeds log (front ++ here ∷ [])
        → AllByRecursion (λ command. AllByRecursion (λ touch. MayUse log front here touch.range.block)
        (touches command)) (made_of log (front ++ here ∷ [])).listed }
    ensures writes { (log : Log) → IsLawful log.meaning log.script → (front : List Head) (here : Head)
        → Succeeds log (front ++ here ∷ [])
        → AllByRecursion (λ written. MayUse log front here written.range.block)
        (made_of log (front ++ here ∷ [])).writes }
    ensures buffers { (log : Log) → IsLawful log.meaning log.script → (front : List Head) (here : Head)
        → Succeeds log (front ++ here ∷ [])
        → (buffer block : ℕ) → (made_of log (front ++ here ∷ [])).blocks buffer ≡ Some block
        → MayUse log front here block }
    ensures inside { (log : Log) → IsLawful log.meaning log.script → (front : List Head) (here : Head)
        → Succeeds log (front ++ here ∷ [])
        → AllByRecursion (λ command. AllByRecursion (λ touch. IsInside log front here touch.range) (touches command))
        (made_of log (front ++ here ∷ [])).listed }
    ensures parts { (log : Log) → IsLawful log.meaning log.script → (front : List Head) (here : Head)
        → Succeeds log (front ++ here ∷ [])
        → AllByRecursion (λ written. IsInside log front here written.range)
        (made_of log (front ++ here ∷ [])).writes }
    ensures formed { (log : Log) → IsLawful log.meaning log.script → (front : List Head) (here : Head)
        → Succeeds log (front ++ here ∷ [])
        → AllByRecursion (λ command. WorkIsFormed command.work × CondIsFormed command.cond)
        (made_of log (front ++ here ∷ [])).listed }
{}

/// The law of what a message takes, in every succession. A block that one of its items takes is no buffer's that
/// lived before it, and no earlier item of the message took it. And where it stages bytes, no item takes a block, of
/// it or of those before it.
pub fn taken_blocks_are_apart()
    ensures strange { (log : Log) (front : List Head) (here : Head) → Succeeds log (front ++ here ∷ [])
        → (before : List Placed) (place : Placed) (after : List Placed) (block : ℕ)
        → here.placed ≡ before ++ place ∷ after → place.block ≡ Some block
        → (buffer : ℕ) → (made_of log front).blocks buffer ≡ Some block → ⊥ }
    ensures once { (log : Log) (front : List Head) (here : Head) → Succeeds log (front ++ here ∷ [])
        → (before : List Placed) (place : Placed) (after : List Placed) (block : ℕ)
        → here.placed ≡ before ++ place ∷ after → place.block ≡ Some block
        → takes block before ≡ false }
    ensures pages { (log : Log) (front : List Head) (here : Head) → Succeeds log (front ++ here ∷ [])
        → AllByRecursion (λ range. takes range.block (all_places (places_in front) ++ here.placed) ≡ false)
        (staged_ranges here.placed) }
{}

/// The law of held blocks, in every succession. The buffers that live behind messages have blocks of their own, and
/// each of these is held: an item took it, and since then none took it again and none gave it up. So a device holds
/// what the commands and the host writes of a message use that it accepted and did not complete, whatever it accepted
/// behind it. The block of a buffer that lives has the length that the buffer wants: so the message took it that took
/// it last. What a message gives up is held too, as the item gives it up by the items before, and by a device that
/// accepted the message and did not complete it. And where no message took what a device held, of those that are not
/// completed no two give up one block, and what they do ends inside blocks as long as they were taken last.
pub fn used_blocks_are_held()
    ensures held { (log : Log) (front : List Head) (here : Head) → Succeeds log (front ++ here ∷ [])
        → (buffer block : ℕ)
        → (made_of log (front ++ here ∷ [])).blocks buffer ≡ Some block
        → IsHeldBy (all_places (places_in (front ++ here ∷ []))) block }
    ensures own { (log : Log) (front : List Head) (here : Head) → Succeeds log (front ++ here ∷ [])
        → (buffer other block : ℕ)
        → (made_of log (front ++ here ∷ [])).blocks buffer ≡ Some block
        → (made_of log (front ++ here ∷ [])).blocks other ≡ Some block → buffer ≡ other }
    ensures lengths { (log : Log) → IsLawful log.meaning log.script → (front : List Head) → Succeeds log front
        → (buffer block : ℕ) → (made_of log front).blocks buffer ≡ Some block
        → IsLong log front block (length_of log.script buffer) }
    ensures commands { (log : Log) → IsLawful log.meaning log.script
        → (front : List Head) (here : Head) (back : List Head) → Succeeds log (front ++ here ∷ back)
        → (completed : ℕ) → completed ≤ length front
        → AllByRecursion (λ command. AllByRecursion
        (λ touch. holds_block completed (places_in (front ++ here ∷ back)) touch.range.block ≡ true) (touches command))
        (made_of log (front ++ here ∷ [])).listed }
    ensures writes { (log : Log) → IsLawful log.meaning log.script
        → (front : List Head) (here : Head) (back : List Head) → Succeeds log (front ++ here ∷ back)
        → (completed : ℕ) → completed ≤ length front
        → AllByRecursion (λ written. holds_block completed (places_in (front ++ here ∷ back)) written.range.block
        ≡ true)
        (made_of log (front ++ here ∷ [])).writes }
    ensures marks { (log : Log) (front : List Head) (here : Head) (back : List Head)
        → Succeeds log (front ++ here ∷ back) → (completed : ℕ) → completed ≤ length front
        → (block : ℕ) → gives_up block here.placed ≡ true
        → holds_block completed (places_in (front ++ here ∷ back)) block ≡ true }
    ensures given { (log : Log) → IsLawful log.meaning log.script → (front : List Head) (here : Head)
        → Succeeds log (front ++ here ∷ [])
        → (before : List Placed) (place : Placed) (after : List Placed) (block : ℕ)
        → here.placed ≡ before ++ place ∷ after → place.mark ≡ Some block
        → IsHeldBy (all_places (places_in front) ++ before) block }
    ensures given_once { (log : Log) (front : List Head) (here : Head) (mid : List Head) (later : Head)
        (back : List Head) → Succeeds log ((front ++ here ∷ mid) ++ later ∷ back)
        → (completed : ℕ) → completed ≤ length front
        → TakesUnheld completed (places_in ((front ++ here ∷ mid) ++ later ∷ back))
        → (block : ℕ) → gives_up block here.placed ≡ true → gives_up block later.placed ≡ false }
    ensures commands_end { (log : Log) → IsLawful log.meaning log.script
        → (front : List Head) (here : Head) (back : List Head) → Succeeds log (front ++ here ∷ back)
        → (completed : ℕ) → completed ≤ length front → TakesUnheld completed (places_in (front ++ here ∷ back))
        → AllByRecursion (λ command. AllByRecursion
        (λ touch. EndsInBlock log (front ++ here ∷ back) here.placed touch.range) (touches command))
        (made_of log (front ++ here ∷ [])).listed }
    ensures writes_end { (log : Log) → IsLawful log.meaning log.script
        → (front : List Head) (here : Head) (back : List Head) → Succeeds log (front ++ here ∷ back)
        → (completed : ℕ) → completed ≤ length front → TakesUnheld completed (places_in (front ++ here ∷ back))
        → AllByRecursion (λ written. EndsInBlock log (front ++ here ∷ back) here.placed written.range)
        (made_of log (front ++ here ∷ [])).writes }
{}

/// The law of what stands, in every succession of a lawful script's messages. From memory in which the blocks of the
/// buffers that live before a message begin with their bytes in order, its batch's acts lead to memory in which those
/// behind it do: the blocks that its items take are set to 0, its parts are written, then its commands run.
pub fn batches_keep_standing()
    ensures start { (log : Log) (memory : Memory) → Stands log.script memory (made_of log []).blocks
        (after_chunk log.meaning log.script 0) }
    ensures stands { (log : Log) → IsLawful log.meaning log.script → (front : List Head) (here : Head)
        → Succeeds log (front ++ here ∷ []) → (memory : Memory)
        → Stands log.script memory (made_of log front).blocks (after_chunk log.meaning log.script (length front))
        → Stands log.script (run_acts log.meaning (batch_acts log front here) memory)
        (made_of log (front ++ here ∷ [])).blocks (after_chunk log.meaning log.script (suc (length front))) }
{}

/// The law of host writes and commands, in every succession of a lawful script's messages. Where a message writes for
/// the host into a block that no item took since an earlier message, its own items included, and that is none of its
/// pages, as for a map that overwrites nothing in use, no command of that earlier message shares a byte with the
/// write.
pub fn parts_keep_clear()
    ensures clear { (log : Log) → IsLawful log.meaning log.script
        → (front : List Head) (earlier : Head) (mid : List Head) (here : Head)
        → Succeeds log ((front ++ earlier ∷ mid) ++ here ∷ [])
        → AllByRecursion (λ written. takes written.range.block (all_places (places_in mid) ++ here.placed) ≡ false
        → stages_in written.range.block here.placed ≡ false
        → AllByRecursion (λ command. lists_conflict (touches command) (host_write_touch written.range ∷ []) ≡ false)
        (made_of log (front ++ earlier ∷ [])).listed)
        (made_of log ((front ++ earlier ∷ mid) ++ here ∷ [])).writes }
{}

/// The law of queries and shaders in messages, in every succession: what messages play are the script's first turns. A
/// message's commands have the next numbers, one after another. Its marks of queries are those that its items make in
/// the script: of calls that no message before it finishes, and behind the commands before it. Those of all messages
/// stand in turn, of one query a Begin and an End, a Begin first, and neither their calls nor the numbers of the
/// commands that they name fall. So the values that its completion has are what those Ends leave whose calls it
/// finishes, by the counts that commands run in order. And what its dispatches run are shaders that its items created,
/// or those of messages before it.
pub fn messages_mark_queries()
    ensures turns { (log : Log) (front : List Head) (here : Head) → Succeeds log (front ++ here ∷ [])
        → (rest : List Turn) × (log.script.turns ≡ turns_upto log.script (suc (length front)) ++ rest) }
    ensures numbers { (log : Log) (front : List Head) (here : Head) → Succeeds log (front ++ here ∷ [])
        → map (λ command. command.number) (made_of log (front ++ here ∷ [])).listed
        ≡ numbers_from (suc (commands_in (turns_upto log.script (length front))))
        (commands_in (chunk_turns log.script (suc (length front)))) }
    ensures marks { (log : Log) (front : List Head) (here : Head) → Succeeds log (front ++ here ∷ [])
        → (made_of log (front ++ here ∷ [])).queries
        ≡ marks_from (commands_in (turns_upto log.script (length front)))
        (chunk_turns log.script (suc (length front))) }
    ensures all { (log : Log) (front : List Head) (here : Head) → Succeeds log (front ++ here ∷ [])
        → queries_of log.script (places_in (front ++ here ∷ []))
        ≡ marks_from 0 (turns_upto log.script (suc (length front))) }
    ensures in_turn { (log : Log) → IsLawful log.meaning log.script → (front : List Head) (here : Head)
        → Succeeds log (front ++ here ∷ [])
        → (query : ℕ) → AreInTurn query false (queries_of log.script (places_in (front ++ here ∷ []))) }
    ensures calls { (log : Log) → IsLawful log.meaning log.script → (front : List Head) (here : Head)
        → Succeeds log (front ++ here ∷ [])
        → Pairwise (λ m k. m.call ≤ k.call) (queries_of log.script (places_in (front ++ here ∷ []))) }
    ensures names { (log : Log) (front : List Head) (here : Head) → Succeeds log (front ++ here ∷ [])
        → Pairwise (λ m k. m.before ≤ k.before) (queries_of log.script (places_in (front ++ here ∷ []))) }
    ensures behind { (log : Log) (front : List Head) (here : Head) → Succeeds log (front ++ here ∷ [])
        → AllByRecursion (λ m. (made_of log front).commands < m.before) (made_of log (front ++ here ∷ [])).queries }
    ensures late { (log : Log) → IsLawful log.meaning log.script → (front : List Head) (here : Head)
        → Succeeds log (front ++ here ∷ [])
        → AllByRecursion (λ m. upto log.script (length front) < m.call) (made_of log (front ++ here ∷ [])).queries }
    ensures ends { (log : Log) (front : List Head) (here : Head) → Succeeds log (front ++ here ∷ [])
        → values_after log.meaning log.script (suc (length front))
        ≡ values_between (count_in_order log.meaning log.script) (upto log.script (length front))
        (upto log.script (suc (length front))) [] (queries_of log.script (places_in (front ++ here ∷ []))) }
    ensures shaders { (log : Log) → IsLawful log.meaning log.script → (front : List Head) (here : Head)
        → Succeeds log (front ++ here ∷ [])
        → AllByRecursion (λ shader. is_among shader (created (turns_upto log.script (suc (length front)))) ≡ true)
        (needed (made_of log (front ++ here ∷ [])).listed) }
{}
