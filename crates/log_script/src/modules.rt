ghost use Rattle.std.specs.Prelude.{◌≡◌, ℕ, ◌*◌, ◌<◌, true, false, cond, List, Some};
ghost use Rattle.dx_types.specs.declared.limits.TheConstants.{UAV_SLOTS};
ghost use Rattle.call_log.specs.Call.{Issued};
ghost use Rattle.d3d_model.specs.InOrder.{call_at};
ghost use Rattle.shader_model.specs.Shader.{Program, shader_of};
ghost use Rattle.shader_model.specs.Invocation.{Slots, words_in};
ghost use Rattle.shader_model.specs.Dispatch.{is_allowed, volume};
ghost use Rattle.spirv_model.specs.Meaning.Bindings.{SlotsFit};
ghost use Rattle.spirv_model.specs.Meaning.ModuleDispatch.{group_of, module_dispatched};
ghost use Rattle.vk_types.specs.declared.command.Groups.{Groups};
ghost use Rattle.vk_types.specs.declared.command.SlotRange.{SlotRange};
ghost use Rattle.vk_types.specs.declared.command.Work.TheVariants as work;
ghost use Rattle.vk_types.specs.Effects.{SlotWords, slots_words, group_counts, put_slots, work_effect};
ghost use Rattle.vk_types.specs.Memory.{Memory};
ghost use Rattle.core_model.specs.Formed.{DispatchIsFormed};
ghost use Rattle.core_model.specs.HostBytes.{IsOfBytes};
ghost use Rattle.log_script.specs.LogScript.{words_by, all_slots, meaning_of};
ghost use Rattle.log_script.specs.Modules.{IsModuleOf};

/// A module of each shader means what the log's shaders mean. On slots that fit a dispatch of the module that is not
/// too large has an outcome, which leaves in each unordered access view the words that the log's meaning leaves
/// there, and runs as many invocations. One that is too large leaves the words and runs none, by both. The slots of a
/// formed dispatch fit wherever memory's bytes are bytes, so there the module does to memory what the log's shader
/// does.
pub fn modules_mean_their_shaders()
    ensures outcome { (log : List Issued) (shader : ℕ) (program : Program) (words : List ℕ)
        → shader_of (words_by (call_at log shader)) ≡ Some program → IsModuleOf words program
        → (counts : List ℕ) (slots : SlotWords) → is_allowed counts (group_of words) ≡ true → SlotsFit (all_slots slots)
        → (left : Slots) × (module_dispatched words counts (all_slots slots) ≡ Some left)
        × ((view : ℕ) → words_in left.writes view ≡ (meaning_of log).words shader counts slots view) }
    ensures too_large { (log : List Issued) (shader : ℕ) (program : Program) (words : List ℕ)
        → shader_of (words_by (call_at log shader)) ≡ Some program → IsModuleOf words program
        → (counts : List ℕ) (slots : SlotWords) → is_allowed counts (group_of words) ≡ false
        → (view : ℕ) → view < UAV_SLOTS → (meaning_of log).words shader counts slots view ≡ slots.uav view }
    ensures counts { (log : List Issued) (shader : ℕ) (program : Program) (words : List ℕ)
        → shader_of (words_by (call_at log shader)) ≡ Some program → IsModuleOf words program → (counts : List ℕ)
        → (meaning_of log).count shader counts
        ≡ cond (is_allowed counts (group_of words)) (volume counts * volume (group_of words)) 0 }
    ensures fit { (memory : Memory) → IsOfBytes memory
        → (counts : Groups) (slots : List SlotRange) → DispatchIsFormed counts slots
        → SlotsFit (all_slots (slots_words memory slots)) }
    ensures effects { (log : List Issued) (shader : ℕ) (program : Program) (words : List ℕ)
        → shader_of (words_by (call_at log shader)) ≡ Some program → IsModuleOf words program
        → (memory : Memory) → IsOfBytes memory
        → (counts : Groups) (slots : List SlotRange) → DispatchIsFormed counts slots
        → is_allowed (group_counts memory counts) (group_of words) ≡ true
        → (left : Slots)
        × (module_dispatched words (group_counts memory counts) (all_slots (slots_words memory slots)) ≡ Some left)
        × (work_effect (meaning_of log) (work.Dispatch shader counts slots) memory
        ≡ put_slots (λ view. words_in left.writes view) slots memory) }
{}
