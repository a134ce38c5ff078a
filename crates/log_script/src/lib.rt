//! A log as the core plays it: definitions of its script, and laws that tie the script to in-order Direct3D. The
//! functions here are empty: each is named for a law, which its clauses state.
#![tactic(auto)]

ghost use Rattle.std.specs.Prelude.{◌≡◌, length, drop};
ghost use Rattle.d3d_model.specs.WorkedLogs as logs;
ghost use Rattle.core_model.specs.WorkedLogs as scripts;
ghost use Rattle.log_script.specs.LogScript.{script_of};
ghost use Rattle.log_script.specs.Worked as worked;

mod binding;
mod buffers;
mod bytes;
mod checked;
mod fitting;
mod lawful;
mod meaning;
mod modules;
mod promise;
mod query_laws;
mod text;
mod turn_laws;
mod whole;

pub use binding::scripts_know_what_is_bound;
pub use buffers::{buffers_are_named_by_their_calls, few_dynamic_buffers_live};
pub use bytes::lists_and_memory_agree;
pub use checked::checked_calls_stand;
pub use fitting::{bound_bytes_live_and_fit, turns_fit_live_buffers};
pub use lawful::{scripts_are_lawful, scripts_have_bytes};
pub use meaning::scripts_mean_what_logs_mean;
pub use modules::modules_mean_their_shaders;
pub use promise::{every_run_answers_as_direct3d, every_run_keeps_the_promise};
pub use query_laws::scripts_use_queries_in_turn;
pub use text::every_run_writes_the_text;
pub use turn_laws::{
    created_buffers_fit_their_classes, scripts_bind_what_they_touch, scripts_number_their_calls,
};
pub use whole::every_run_says_all;

/// The definitions give the scripts of the worked logs.
pub fn scripts_compute()
    ensures update_copy_map { (script_of logs.update_copy_map_log).turns ≡ scripts.update_copy_map.turns }
    ensures five_buffers { (script_of worked.five_buffers_log).turns ≡ scripts.five_buffers.turns }
    ensures no_overwrite { (script_of logs.no_overwrite_meets_a_view_log).turns ≡ worked.no_overwrite_turns }
    ensures list { (script_of logs.list_discards_anew_log).turns ≡ worked.list_turns }
    ensures list_buffers { worked.HasListBuffers (script_of logs.list_discards_anew_log) }
    ensures statistics { (script_of logs.statistics_of_indirect_dispatches_log).turns ≡ worked.statistics_turns }
    ensures predicate { (script_of logs.word_predicate_skips_a_copy_log).turns ≡ worked.predicate_turns }
    ensures store { drop 6 (script_of logs.udiv_shift_bitfield_log).turns ≡ worked.store_turns }
    ensures reused_ids { (script_of worked.reused_ids_log).turns ≡ worked.reused_ids_turns }
{}
