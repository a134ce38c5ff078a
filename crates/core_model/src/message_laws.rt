ghost use Rattle.std.specs.Prelude.{true, ◌≡◌, ℕ, suc, Some, List, [], ◌∷◌, ◌++◌, length, map, slice_get};
ghost use Rattle.vk_types.specs.Entries.{run_entries};
ghost use Rattle.dx_types.specs.declared.range.Range.{Range};
ghost use Rattle.vk_types.specs.declared.command.Command.{Command};
ghost use Rattle.vk_types.specs.Memory.{Memory, zeros, put, number_at};
ghost use Rattle.core_model.specs.Chunking.{chunks, after_chunk};
ghost use Rattle.core_model.specs.CoreState.{Message, Core, start, flat, listed, Segment, of_messages};
ghost use Rattle.core_model.specs.Readings.{Reading};
ghost use Rattle.core_model.specs.HostBytes.{bytes_of, AreBytes, HasBytes, IsOfBytes};
ghost use Rattle.core_model.specs.Script.{Script};
ghost use Rattle.vk_types.specs.Effects.{Meaning, effect};
ghost use Rattle.core_model.specs.Spine.{Succeeds};
ghost use Rattle.core_model.specs.Succession.{Log, ChunkView, ChunkBy, BatchBy, SubmissionBy, CompletionBy, PostBy};
ghost use Rattle.core_model.specs.Stands.{Stands};
ghost use Rattle.core_model.specs.Invariant.{handed};
ghost use Rattle.vk_types.specs.declared.message.Batch.{Batch};
ghost use Rattle.vk_types.specs.declared.message.Submission.{Submission};
ghost use Rattle.vk_types.specs.declared.message.Completion.{Completion};
ghost use Rattle.vk_types.specs.declared.message.Post.{Post};
ghost use Rattle.core_model.specs.Batching.{made, batch_ops};
ghost use Rattle.core_model.specs.Batches.{batches};
ghost use Rattle.core_model.specs.Filling.{AreFilled};
ghost use Rattle.core_model.specs.Messages.{heads, IsChunk, IsBatch, IsCompletion, IsPost};
ghost use Rattle.core_model.specs.Reached.{IsReached};

/// The law of succession, of a lawful script, in every state that steps reach from the start, in each reading and by
/// any choices. The heads of the chunks that were handed over succeed each other. A message that stands for a chunk
/// which was handed over may stand behind messages with the heads of the chunks before it, as chunk, batch and
/// submission, and, where the chunk is one of a completion or of a post that was not taken, as completion and post:
/// whichever ready commands were run, and however far each chunk came. What the host writes for a chunk are the parts
/// that its items have in the log, in zeros; the batches of the listing are those that are made of the chunks, and no
/// other; and after each chunk the blocks that its items gave hold, as the listing leaves them, what the log's chunks
/// so far leave in order.
pub fn messages_succeed()
    ensures heads { (log : Log) (reading : Reading) (core : Core) → IsReached log.meaning reading log.script core
        → Succeeds log (heads (handed core)) }
    ensures chunks { (log : Log) (reading : Reading) (core : Core) → IsReached log.meaning reading log.script core
        → (front : List Segment) (s : Segment) (back : List Segment) → handed core ≡ front ++ s ∷ back
        → (m : ChunkView) → IsChunk log.script front s m → ChunkBy log (heads front) m }
    ensures batches { (log : Log) (reading : Reading) (core : Core) → IsReached log.meaning reading log.script core
        → (front : List Segment) (s : Segment) (back : List Segment) → handed core ≡ front ++ s ∷ back
        → (m : Batch) → IsBatch log core.listing front s m → BatchBy log (heads front) m }
    ensures submissions { (log : Log) (reading : Reading) (core : Core) → IsReached log.meaning reading log.script core
        → (front : List Segment) (s : Segment) (back : List Segment) → handed core ≡ front ++ s ∷ back
        → (m : Submission) → IsBatch log core.listing front s m.batch → SubmissionBy log (heads front) m }
    ensures completions { (log : Log) (reading : Reading) (core : Core) → IsReached log.meaning reading log.script core
        → (earlier : List Message) (m : Message) (others : List Message)
        → core.posts ++ core.completions ≡ earlier ++ m ∷ others
        → (c : Completion) → IsCompletion core.listing (core.taken ++ of_messages earlier) m c
        → CompletionBy log (heads (core.taken ++ of_messages earlier)) c }
    ensures posts { (log : Log) (reading : Reading) (core : Core) → IsReached log.meaning reading log.script core
        → (earlier : List Message) (m : Message) (others : List Message)
        → core.posts ++ core.completions ≡ earlier ++ m ∷ others
        → (p : Post) → IsPost core.listing (core.taken ++ of_messages earlier) m p
        → PostBy log (heads (core.taken ++ of_messages earlier)) p }
    ensures filled { (log : Log) (reading : Reading) (core : Core) → IsReached log.meaning reading log.script core
        → (front : List Segment) (s : Segment) (back : List Segment) → handed core ≡ front ++ s ∷ back
        → AreFilled (made log.script (map (λ s. s.placed) (front ++ s ∷ []))).writes s.writes }
    ensures listed { (log : Log) (reading : Reading) (core : Core) → IsReached log.meaning reading log.script core
        → (front : List Segment) (s : Segment) (back : List Segment) → handed core ≡ front ++ s ∷ back
        → slice_get (batches core.listing) (length front) ≡ Some
        (batch_ops (made log.script (map (λ s. s.placed) (front ++ s ∷ []))) (suc (length front))) }
    ensures count { (log : Log) (reading : Reading) (core : Core) → IsReached log.meaning reading log.script core
        → length (batches core.listing) ≡ length (handed core) }
    ensures stands { (log : Log) (reading : Reading) (core : Core) → IsReached log.meaning reading log.script core
        → (front : List Segment) (s : Segment) (back : List Segment) → handed core ≡ front ++ s ∷ back
        → Stands log.script (run_entries log.meaning (flat (front ++ s ∷ [])) zeros)
        (made log.script (map (λ s. s.placed) (front ++ s ∷ []))).blocks
        (after_chunk log.meaning log.script (suc (length front))) }
{}

/// What the host writes is a function of the script alone: in every state that steps reach, in each reading and by
/// any choices, the byte lists of the listing's host writes are those of the items so far, in order, and at the end
/// those of all items.
pub fn host_writes_are_the_items()
    ensures so_far { (meaning : Meaning) (reading : Reading) (script : Script) (core : Core)
        → IsReached meaning reading script core
        → core.contents ≡ bytes_of script core.past }
    ensures ended { (meaning : Meaning) (reading : Reading) (script : Script) (core : Core)
        → IsReached meaning reading script core → core.ended ≡ true
        → core.contents ≡ bytes_of script script.turns }
{}

/// Where what the host writes of a script's items are bytes, the device's memory has bytes, in every state that steps
/// reach, in each reading and by any choices: each command leaves bytes, and each host write of bytes does.
pub fn memory_has_bytes()
    ensures reached { (meaning : Meaning) (reading : Reading) (script : Script) (core : Core)
        → IsReached meaning reading script core → HasBytes script
        → IsOfBytes core.memory }
    ensures commands { (meaning : Meaning) (command : Command) (memory : Memory) → IsOfBytes memory
        → IsOfBytes (effect meaning command memory) }
    ensures writes { (target : Range) (bytes : List ℕ) (memory : Memory) → AreBytes bytes → IsOfBytes memory
        → IsOfBytes (put target (number_at bytes) memory) }
{}
