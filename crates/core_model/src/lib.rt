//! The core as a machine: how the items of a log are cut into chunks, the states and steps of its six parts, and what
//! holds in every run. The functions here are empty: each is named for a law, which its clauses state.
#![tactic(auto)]

mod block_laws;
mod end_laws;
mod message_laws;
mod query_laws;
mod run_laws;
mod step_laws;
mod succession_laws;
mod worked;

pub use block_laws::{device_holds_what_it_uses, marked_blocks_come_home, taken_blocks_are_idle};
pub use end_laws::{chunks_can_finish, ends_are_whole, runs_end};
pub use message_laws::{host_writes_are_the_items, memory_has_bytes, messages_succeed};
pub use query_laws::{commands_count_in_order, counts_are_sums, query_messages_are_right};
pub use run_laws::{
    counts_order_runs, host_reads_are_answers, pending_calls_are_late, runs_keep_the_invariant,
    states_are_lawful,
};
pub use step_laws::first_choices_are_free;
pub use succession_laws::{
    batches_are_ordered, batches_keep_standing, messages_mark_queries, messages_use_their_blocks,
    parts_keep_clear, taken_blocks_are_apart, used_blocks_are_held,
};
pub use worked::worked_logs;
