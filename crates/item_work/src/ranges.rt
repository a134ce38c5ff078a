ghost use Rattle.std.specs.Prelude.{◌≡◌};
ghost use Rattle.std.specs.Option.{option_map};
ghost use Rattle.base_lemmas.specs.IdMap as ids;
ghost use Rattle.vk_types.specs.Memory.{or_zero};
ghost use Rattle.core_model.specs.Renaming.{BlockMap, cond_on, range_on};
ghost use Rattle.d3d_model.specs.Past.{Past};
ghost use Rattle.log_script.specs.Makers.{of_maker};
ghost use Rattle.log_script.specs.Plays.{condition, skips};
ghost use Rattle.item_work.specs.Placed.{NamesBlocks, range_at};

use crate::BufferBlocks;
use d3d_views::{Bindings, Predicate};
use dx_types::{BlockNo, Range, ResRange};
use vk_types::Cond;

/// Bytes of a live buffer, in its block.
pub fn range_on(blocks: &BufferBlocks, r: &ResRange) -> Range
    ensures by_id { result ≡ range_at blocks.now r.now }
    ensures by_maker { (past : Past) (of : BlockMap) → NamesBlocks past blocks.now of
        → result ≡ range_on of (of_maker past r.now) }
{
    Range {
        block: block_of(blocks, r.res),
        from: r.from,
        to: r.to,
    }
}

// The block of a live buffer; 0 of another.
fn block_of(blocks: &BufferBlocks, id: u32) -> BlockNo
    ensures { result ≡ or_zero (ids.get blocks.now id) }
{
    match blocks.get(id) {
        Some(block) => block,
        None => 0,
    }
}

/// The word that the predicate reads as a command runs, if it reads one.
pub fn condition(blocks: &BufferBlocks, set: &Bindings) -> Option<Cond>
    ensures { (past : Past) (of : BlockMap) → NamesBlocks past blocks.now of
        → result ≡ cond_on of (condition past set.now.predicate) }
{
    match set.predicate() {
        Predicate::Word { value, .. } => {
            let word = set.predicate_word();
            word_condition(blocks, word, value)
        }
        Predicate::Never | Predicate::Query { .. } => None,
    }
}

// A word as a condition.
fn word_condition(blocks: &BufferBlocks, word: Option<ResRange>, value: u32) -> Option<Cond>
    ensures { result ≡ option_map (λ r. record { at = range_at blocks.now r; value = value }) word }
{
    let word = word?;
    let at = range_on(blocks, &word);
    Some(Cond { at, value })
}

/// Whether a predicate of a query skips the call: its result is 0, which is known as the call is recorded.
pub fn skips(set: &Bindings) -> bool
    ensures { result ≡ skips set.now.predicate }
{
    matches!(set.predicate(), Predicate::Query { value: 0, .. })
}
