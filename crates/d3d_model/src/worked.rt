ghost use Rattle.std.specs.Prelude.{◌≡◌};
ghost use Rattle.d3d_model.specs.ReplyText.{replies, none_pending};
ghost use Rattle.d3d_model.specs.WorkedLogs as worked;

/// The definitions give the replies of the worked logs.
pub fn model_computes()
    ensures empty { replies worked.empty_log none_pending ≡ worked.empty_replies }
    ensures no_overwrite_meets_a_view { replies worked.no_overwrite_meets_a_view_log none_pending ≡ worked.no_overwrite_meets_a_view_replies }
    ensures list_discards_anew { replies worked.list_discards_anew_log none_pending ≡ worked.list_discards_anew_replies }
    ensures statistics_of_indirect_dispatches { replies worked.statistics_of_indirect_dispatches_log none_pending ≡ worked.statistics_of_indirect_dispatches_replies }
    ensures word_predicate_skips_a_copy { replies worked.word_predicate_skips_a_copy_log none_pending ≡ worked.word_predicate_skips_a_copy_replies }
    ensures first_refusals { replies worked.first_refusals_log none_pending ≡ worked.first_refusals_replies }
    ensures no_overwrite_meets_a_copy { replies worked.no_overwrite_meets_a_copy_log none_pending ≡ worked.no_overwrite_meets_a_copy_replies }
    ensures execute_list_restores { replies worked.execute_list_restores_log none_pending ≡ worked.execute_list_restores_replies }
    ensures update_copy_map { replies worked.update_copy_map_log none_pending ≡ worked.update_copy_map_replies }
    ensures udiv_shift_bitfield { replies worked.udiv_shift_bitfield_log none_pending ≡ worked.udiv_shift_bitfield_replies }
    ensures store_out_of_range { replies worked.store_out_of_range_log none_pending ≡ worked.store_out_of_range_replies }
{}
