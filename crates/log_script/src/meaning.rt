ghost use Rattle.std.specs.Prelude.{◌≡◌, ℕ, ◌-◌, ◌≤◌, Bool, List, ◌∷◌, ◌++◌, length, map, Option, Some};
ghost use Rattle.dx_types.specs.declared.range.Range.{Range};
ghost use Rattle.dx_types.specs.declared.reply.Reply.TheVariants as said;
ghost use Rattle.base_lemmas.specs.Lists.{numbers_from};
ghost use Rattle.vk_types.specs.Memory.{byte_of};
ghost use Rattle.call_log.specs.Call.{Issued};
ghost use Rattle.d3d_model.specs.InOrder.{after_calls};
ghost use Rattle.d3d_model.specs.ReplyText.{none_pending, reply_at};
ghost use Rattle.core_model.specs.Script.{Bytes, Count, Constant, Turn, Asked, at_start, in_order};
ghost use Rattle.log_script.specs.LogScript.{meaning_of, turns_upto, script_of};
ghost use Rattle.log_script.specs.Agreeing.{Agrees};

/// A script means in order what Direct3D means: behind the turns of the first calls its state shows the Direct3D
/// state after those calls, and what it answers, Direct3D answers.
pub fn scripts_mean_what_logs_mean()
    ensures states { (log : List Issued) (n : ℕ) → n ≤ length log
        → Agrees (after_calls log n) (in_order (meaning_of log) (script_of log) (turns_upto log n) at_start) }
    // a readback answers with the bytes that the memory has when its turn comes
    ensures bytes { (log : List Issued) (front : List Turn) (call : ℕ) (source : Range) (used : Option ℕ)
        (may_pend : Bool) (back : List Turn)
        → (script_of log).turns ≡ front ++ Asked call (Bytes source) used may_pend ∷ back
        → reply_at log none_pending call
        ≡ Some (said.Bytes call
        (map (byte_of (in_order (meaning_of log) (script_of log) front at_start).bytes source)
        (numbers_from 0 (source.to - source.from)))) }
    ensures counts { (log : List Issued) (front : List Turn) (call query : ℕ) (used : Option ℕ) (may_pend : Bool)
        (back : List Turn)
        → (script_of log).turns ≡ front ++ Asked call (Count query) used may_pend ∷ back
        → reply_at log none_pending call
        ≡ Some (said.Value call ((in_order (meaning_of log) (script_of log) front at_start).count query)) }
    ensures constants { (log : List Issued) (front : List Turn) (call value : ℕ) (used : Option ℕ) (may_pend : Bool)
        (back : List Turn)
        → (script_of log).turns ≡ front ++ Asked call (Constant value) used may_pend ∷ back
        → reply_at log none_pending call ≡ Some (said.Value call value) }
{}
