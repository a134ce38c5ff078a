ghost use Rattle.std.specs.Prelude.{◌≡◌, ℕ, ◌<◌, Bool, false, Some, List, [], ◌++◌};
ghost use Rattle.std.specs.List.{AllByRecursion};
ghost use Rattle.vk_types.specs.Covered.{Covered};
ghost use Rattle.vk_types.specs.declared.op.VkOp.{VkOp};
ghost use Rattle.vk_types.specs.Effects.{Meaning};
ghost use Rattle.vk_types.specs.Entries.{EntriesCovered, EntriesKeep, run_entries, start_counts};
ghost use Rattle.vk_types.specs.Listing.{acts};
ghost use Rattle.vk_types.specs.Allowed.{IsAllowed, outcome};
ghost use Rattle.base_lemmas.specs.Lists.{IsReordering};
ghost use Rattle.vk_types.specs.Memory.{zeros};
ghost use Rattle.vk_types.specs.RunListing.{IsRunListing, SameOrder};
ghost use Rattle.core_model.specs.Script.{Ask, Script};
ghost use Rattle.core_model.specs.Chunking.{is_due, cut, chunks};
ghost use Rattle.core_model.specs.CoreState.{Core, start, flat, rests, on_device, listed};
ghost use Rattle.core_model.specs.Readings.{Reading, Any_choices};
ghost use Rattle.core_model.specs.Stands.{FreeIsIdle};
ghost use Rattle.core_model.specs.Runs.{IsRun, pending};
ghost use Rattle.core_model.specs.RunReads.{ReadsStaging, listed_entries};
ghost use Rattle.core_model.specs.Listed.{plain_entries};
ghost use Rattle.core_model.specs.Lawful.{IsLawful};
ghost use Rattle.core_model.specs.Invariant.{turns_of, handed, commands_of, IsSized, IsBounded, IsAsked, IsRight, Good};
ghost use Rattle.core_model.specs.Kept.{Kept};
ghost use Rattle.core_model.specs.Queries.{QueriesRight};
ghost use Rattle.core_model.specs.ClassBlocks.{ClassesRight, HasBlockFor};
ghost use Rattle.core_model.specs.Stills.{StillsAreRight};
ghost use Rattle.core_model.specs.HostReads.{RepliesAreReads, ReadsAreReplies};
ghost use Rattle.core_model.specs.Batching.{made};
ghost use Rattle.dx_types.specs.declared.limits.TheConstants.{CLASSES};
ghost use Rattle.core_model.specs.Reached.{IsReached};

/// Laws of the listing of a run: that has the barriers which its hazards cause, numbers its submits and keeps each
/// batch whole. The counts of its acts order what its masks and fences order. Where they order each conflicting pair,
/// and the host reads staging blocks alone, the listing is covered.
pub fn counts_order_runs()
    ensures alike { (staging : ℕ → Bool) (contents : List (List ℕ)) (ops : List VkOp)
        → IsRunListing staging ops → SameOrder contents ops }
    ensures covered { (staging : ℕ → Bool) (contents : List (List ℕ)) (ops : List VkOp)
        → IsRunListing staging ops → ReadsStaging staging ops → EntriesCovered (listed_entries contents ops)
        → Covered ops }
{}

/// The law of runs, of a lawful script. The invariant, what holds of queries, and where the blocks of a class are,
/// hold in every state that steps reach from the start, by any choices, in each reading and in any order, and the
/// invariant at the end of each run of the core that is stepped, by any schedule. So there each answer, of bytes or
/// of a query's count, is what the calls before it give one after another, and each call that was answered as pending
/// has a use that is not finished; no command that is not finished touches a block that may be handed out; the
/// listing is covered, and all orders that it allows agree; and what the device ran keeps what is ordered. And where
/// App may take a turn, of each class a block can be made, is at home or on its way there, or was retired by a chunk
/// that was handed over.
pub fn runs_keep_the_invariant()
    ensures steps { (meaning : Meaning) (reading : Reading) (script : Script) (core : Core)
        → IsReached meaning reading script core → Kept meaning reading script core }
    ensures runs { (meaning : Meaning) (script : Script) → IsLawful meaning script
        → (schedule : List ℕ) (core : Core) → IsRun meaning script schedule core
        → Kept meaning Any_choices script core }
    ensures queries { (meaning : Meaning) (reading : Reading) (script : Script) (core : Core)
        → IsReached meaning reading script core → QueriesRight meaning script core }
    ensures classes { (meaning : Meaning) (reading : Reading) (script : Script) (core : Core)
        → IsReached meaning reading script core → ClassesRight script core }
    ensures blocks { (meaning : Meaning) (reading : Reading) (script : Script) (core : Core)
        → IsReached meaning reading script core
        → is_due script core.open_chunk.turns core.future ≡ false → (class : ℕ) → class < CLASSES
        → HasBlockFor core class }
    ensures replies { (meaning : Meaning) (script : Script) → IsLawful meaning script
        → (schedule : List ℕ) (core : Core) → IsRun meaning script schedule core
        → AllByRecursion (IsRight meaning script) core.replies }
    ensures pending { (meaning : Meaning) (script : Script) → IsLawful meaning script
        → (schedule : List ℕ) (core : Core) → IsRun meaning script schedule core → (n finished : ℕ)
        → pending core n ≡ Some finished
        → (ask : Ask) × (used : ℕ) × IsAsked script n ask (Some used) × (finished < used) }
    ensures idle { (meaning : Meaning) (reading : Reading) (script : Script) (core : Core)
        → IsReached meaning reading script core → FreeIsIdle core }
    ensures covered { (meaning : Meaning) (reading : Reading) (script : Script) (core : Core)
        → IsReached meaning reading script core
        → Covered (core.listing ++ core.open_chunk.ops) }
    ensures orders { (meaning : Meaning) (reading : Reading) (script : Script) (core : Core)
        → IsReached meaning reading script core
        → (order : List ℕ) → IsAllowed (core.listing ++ core.open_chunk.ops) order
        → outcome meaning core.contents (core.listing ++ core.open_chunk.ops) order
        ≡ outcome meaning core.contents (core.listing ++ core.open_chunk.ops)
        (acts (core.listing ++ core.open_chunk.ops)) }
    ensures ran { (meaning : Meaning) (reading : Reading) (script : Script) (core : Core)
        → IsReached meaning reading script core
        → EntriesKeep (core.ran ++ rests core.accepted) }
{}

/// What the invariant says of each state. The chunks that were handed over, and what is cut of the rest, are the
/// script's, and no queue is longer than it may be. No block at home or on its way home, and no page that came back,
/// is in the touches of a command that is not finished. The listing, with the open chunk's operations behind it, is a
/// run's, and its acts are the state's entries, whose counts order what its masks and fences order. It is covered, so
/// that every order that it allows leaves the memory, and gives the host the bytes, that its own order does. The
/// commands that were run and those that are left are those that the device accepted, each once, and keep what is
/// ordered; where none is left, the device holds what the listing's order leaves, whichever ready commands were run.
pub fn states_are_lawful()
    ensures chunks { (meaning : Meaning) (reading : Reading) (script : Script) (core : Core)
        → Good meaning reading script core
        → chunks script ≡ turns_of (handed core) ++ cut script core.open_chunk.turns core.future }
    ensures places { (meaning : Meaning) (reading : Reading) (script : Script) (core : Core)
        → Good meaning reading script core → IsSized reading core × IsBounded reading core }
    ensures idle { (meaning : Meaning) (reading : Reading) (script : Script) (core : Core)
        → Good meaning reading script core → FreeIsIdle core }
    ensures listing { (meaning : Meaning) (reading : Reading) (script : Script) (core : Core)
        → Good meaning reading script core → IsRunListing core.is_staging (core.listing ++ core.open_chunk.ops) }
    ensures covered { (meaning : Meaning) (reading : Reading) (script : Script) (core : Core)
        → Good meaning reading script core → Covered (core.listing ++ core.open_chunk.ops) }
    ensures alike { (meaning : Meaning) (reading : Reading) (script : Script) (core : Core)
        → Good meaning reading script core → SameOrder core.contents (core.listing ++ core.open_chunk.ops) }
    ensures entries { (meaning : Meaning) (reading : Reading) (script : Script) (core : Core)
        → Good meaning reading script core
        → plain_entries start_counts core.contents (core.listing ++ core.open_chunk.ops) ≡ listed core }
    ensures orders { (meaning : Meaning) (reading : Reading) (script : Script) (core : Core)
        → Good meaning reading script core → (order : List ℕ) → IsAllowed (core.listing ++ core.open_chunk.ops) order
        → outcome meaning core.contents (core.listing ++ core.open_chunk.ops) order
        ≡ outcome meaning core.contents (core.listing ++ core.open_chunk.ops)
        (acts (core.listing ++ core.open_chunk.ops)) }
    ensures each_once { (meaning : Meaning) (reading : Reading) (script : Script) (core : Core)
        → Good meaning reading script core → IsReordering (commands_of (on_device core))
        (core.ran ++ rests core.accepted) }
    ensures order { (meaning : Meaning) (reading : Reading) (script : Script) (core : Core)
        → Good meaning reading script core → EntriesKeep (core.ran ++ rests core.accepted) }
    ensures memory { (meaning : Meaning) (reading : Reading) (script : Script) (core : Core)
        → Good meaning reading script core → rests core.accepted ≡ []
        → core.memory ≡ run_entries meaning (flat (on_device core)) zeros }
{}

/// The law of host reads, of a lawful script, in every state that steps reach from the start and at the end of each
/// run of the core that is stepped. A reply with bytes has those that its call's range has when the calls before it
/// are taken one after another. Where the call has a last use, a host read of that range stands in the listing for
/// it, and each order that the listing allows gives there exactly these bytes. And each host read of the listing is
/// that of a call with a last use that was answered so. A call is asked at one place of a script, so the place that a
/// clause is told of is the one that the reply is of.
pub fn host_reads_are_answers()
    ensures replies { (meaning : Meaning) (reading : Reading) (script : Script) (core : Core)
        → IsReached meaning reading script core → RepliesAreReads meaning script core }
    ensures reads { (meaning : Meaning) (reading : Reading) (script : Script) (core : Core)
        → IsReached meaning reading script core → ReadsAreReplies meaning script core }
    ensures run_replies { (meaning : Meaning) (script : Script) → IsLawful meaning script
        → (schedule : List ℕ) (core : Core) → IsRun meaning script schedule core → RepliesAreReads meaning script core }
    ensures run_reads { (meaning : Meaning) (script : Script) → IsLawful meaning script
        → (schedule : List ℕ) (core : Core) → IsRun meaning script schedule core → ReadsAreReplies meaning script core }
{}

/// The law of calls that are answered as pending, of a lawful script, in every state that steps reach from the start,
/// in each reading, in threads too. Such a call has a last use, and what was finished is less: the calls of the first
/// so many chunks. It is as much as was known before, by the last use of each call that was answered and by what each
/// pending call said; and no less than all chunks but the last 32 of those that hold the items of the calls before
/// it.
pub fn pending_calls_are_late()
    ensures stills { (meaning : Meaning) (reading : Reading) (script : Script) (core : Core)
        → IsReached meaning reading script core
        → StillsAreRight script [] core.replies }
{}
