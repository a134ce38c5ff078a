ghost use Rattle.vk_types.specs.Effects.{Meaning};
ghost use Rattle.core_model.specs.Lawful.{IsLawful};
ghost use Rattle.core_model.specs.WorkedLogs.{no_shaders, update_copy_map, PlaysUpdateCopyMap, PlaysFiveBuffers};
ghost use Rattle.core_model.specs.Gaps.{cut_list, no_shader, odd_use, odd_copy, odd_slots};
ghost use Rattle.core_model.specs.WorkedQuery.{count_groups, one_query, PlaysOneQuery};

/// What the definitions give for three small logs: the whole run, with its replies and its listing. The first log,
/// and the last, which has a query that counts, are all that the checks of the calls make sure of, so what is asked
/// of a script can be met. Nor is too little asked: a script that ends in the middle of a list, dispatches a shader
/// that no call creates, waits for a call that no chunk finishes, copies to fewer bytes, or has a buffer in two
/// writable slots, is not lawful.
pub fn worked_logs()
    ensures lawful { IsLawful no_shaders update_copy_map }
    ensures update_copy_map { PlaysUpdateCopyMap }
    ensures five_buffers { PlaysFiveBuffers }
    ensures lawful_query { IsLawful count_groups one_query }
    ensures one_query { PlaysOneQuery }
    ensures cut_list { (meaning : Meaning) → IsLawful meaning cut_list → ⊥ }
    ensures no_shader { (meaning : Meaning) → IsLawful meaning no_shader → ⊥ }
    ensures odd_use { (meaning : Meaning) → IsLawful meaning odd_use → ⊥ }
    ensures odd_copy { (meaning : Meaning) → IsLawful meaning odd_copy → ⊥ }
    ensures odd_slots { (meaning : Meaning) → IsLawful meaning odd_slots → ⊥ }
{}
