ghost use Rattle.std.specs.Prelude.{◌≡◌, ℕ, ◌-◌, true, List, [], Some, map, slice_get};
ghost use Rattle.std.specs.List.{AllByRecursion, flat_map};
ghost use Rattle.dx_types.specs.declared.range.Range.{Range};
ghost use Rattle.dx_types.specs.declared.reply.Reply.TheVariants as said;
ghost use Rattle.call_log.specs.Call.{Issued};
ghost use Rattle.vk_types.specs.declared.op.VkOp.TheVariants as op;
ghost use Rattle.vk_types.specs.Allowed.{IsAllowed, outcome};
ghost use Rattle.vk_types.specs.Covered.{Covered};
ghost use Rattle.base_lemmas.specs.Lists.{numbers_from};
ghost use Rattle.d3d_model.specs.Uses.{last_use};
ghost use Rattle.d3d_model.specs.ReplyText.{none_pending, replies, reply_at};
ghost use Rattle.core_model.specs.CoreState.{Bytes_said, Core, start};
ghost use Rattle.core_model.specs.CoreStep.{Event, Chain};
ghost use Rattle.core_model.specs.HostReads.{whole_listing, IsSaid};
ghost use Rattle.core_model.specs.Readings.{Reading};
ghost use Rattle.core_model.specs.Runs.{IsRun};
ghost use Rattle.core_model.specs.Stands.{FreeIsIdle};
ghost use Rattle.core_model.specs.Stills.{StillsAreRight};
ghost use Rattle.log_script.specs.Answered.{AnswersAsDirect3d};
ghost use Rattle.log_script.specs.LogScript.{meaning_of, script_of};
ghost use Rattle.log_script.specs.Promise.{KeepsPromise};
ghost use Rattle.log_script.specs.RunText.{reply_said};

/// Every run of the core answers as Direct3D does: in every state that steps reach from the start, in each reading
/// and by any choices, and at the end of each run of the core that is stepped, by any schedule, each reply that was
/// given is what in-order Direct3D says of its call, or it names the last use, not finished, of a call that does not
/// wait. And each host read of the listing gives, under every order that the barriers and fences of the listing
/// allow, the bytes that Direct3D answers to its call; and each answer in bytes to a call that has a last use has its
/// host read there. What a pending call names as finished is the calls of the first so many chunks, no less than what
/// was known before, nor than all but the last 32 chunks of the calls before it. The listing is covered, and no
/// command that is not finished touches a block that may be handed out.
pub fn every_run_answers_as_direct3d()
    ensures chains { (log : List Issued) (reading : Reading) (events : List Event) (core : Core)
        → Chain (meaning_of log) reading (script_of log) (start (script_of log)) events core
        → AllByRecursion (AnswersAsDirect3d log) core.replies }
    ensures runs { (log : List Issued) (schedule : List ℕ) (core : Core)
        → IsRun (meaning_of log) (script_of log) schedule core → AllByRecursion (AnswersAsDirect3d log) core.replies }
    ensures reads { (log : List Issued) (reading : Reading) (events : List Event) (core : Core)
        → Chain (meaning_of log) reading (script_of log) (start (script_of log)) events core
        → (call : ℕ) (r : Range) (place : ℕ) → slice_get (whole_listing core) place ≡ Some (op.HostRead r call)
        → (order : List ℕ) → IsAllowed (whole_listing core) order
        → reply_at log none_pending call
        ≡ Some (said.Bytes call
        (map ((outcome (meaning_of log) core.contents (whole_listing core) order).answers place)
        (numbers_from 0 (r.to - r.from)))) }
    ensures reads_stand { (log : List Issued) (reading : Reading) (events : List Event) (core : Core)
        → Chain (meaning_of log) reading (script_of log) (start (script_of log)) events core
        → (call : ℕ) (bytes : List ℕ) → IsSaid core (Bytes_said call bytes) → (used : ℕ) → last_use log call ≡ Some used
        → (r : Range) × (place : ℕ) × (slice_get (whole_listing core) place ≡ Some (op.HostRead r call)) }
    ensures pending { (log : List Issued) (reading : Reading) (events : List Event) (core : Core)
        → Chain (meaning_of log) reading (script_of log) (start (script_of log)) events core
        → StillsAreRight (script_of log) [] core.replies }
    ensures covered { (log : List Issued) (reading : Reading) (events : List Event) (core : Core)
        → Chain (meaning_of log) reading (script_of log) (start (script_of log)) events core
        → Covered (whole_listing core) }
    ensures idle { (log : List Issued) (reading : Reading) (events : List Event) (core : Core)
        → Chain (meaning_of log) reading (script_of log) (start (script_of log)) events core → FreeIsIdle core }
{}

/// The promise of the model, as one law over logs and schedules. Each log has a run by each schedule, and one. It
/// writes the text that Direct3D says of the log, where some calls that do not wait are pending; without a schedule
/// none is. Its listing is covered, and under every order that the listing allows each host read gives the bytes that
/// Direct3D answers to its call; and a host read stands there for each answer in bytes to a call that has a last use.
/// No command that is not finished touches a block that may be handed out, and each command was run once. So it is at
/// the end in each reading, whatever the parts chose.
pub fn every_run_keeps_the_promise()
    ensures runs { (log : List Issued) (schedule : List ℕ) (core : Core)
        → IsRun (meaning_of log) (script_of log) schedule core → KeepsPromise log core }
    ensures exists { (log : List Issued) (schedule : List ℕ) → (core : Core)
        × IsRun (meaning_of log) (script_of log) schedule core }
    ensures one { (log : List Issued) (schedule : List ℕ) (a b : Core)
        → IsRun (meaning_of log) (script_of log) schedule a → IsRun (meaning_of log) (script_of log) schedule b
        → a ≡ b }
    ensures none_pending { (log : List Issued) (core : Core) → IsRun (meaning_of log) (script_of log) [] core
        → flat_map (reply_said log) core.replies ≡ replies log none_pending }
    ensures chains { (log : List Issued) (reading : Reading) (events : List Event) (core : Core)
        → Chain (meaning_of log) reading (script_of log) (start (script_of log)) events core → core.ended ≡ true
        → KeepsPromise log core }
{}
