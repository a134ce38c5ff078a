// What a thread does that emits modules.

ghost use Rattle.std.specs.Prelude.{◌≡◌, ◌≢◌, ℕ, MatchResult, None};
ghost use Rattle.pipe_cache.specs.Cells.{AreNotesOf, HasShader, known_by, tokens_at};
ghost use Rattle.pipe_cache.specs.Modules.{module_for};

use crate::cache::{Cache, CacheNote};
use call_log::Log;
use dx_io::{Gate, GateStage};
use dx_types::CallNo;
use std::alloc::AllocError;

/// Sees to it that the shader that a call of the log creates has its module. The gate is called before the module is
/// set and after it. Only want of memory refuses.
pub fn worker_step<G: Gate>(
    cache: &Cache,
    log: &Log<'_>,
    shader: CallNo,
    note: &mut CacheNote,
    gate: &G,
) -> Result<(), AllocError>
    requires note { AreNotesOf cache.now note.old }
    requires shader { HasShader cache.now shader }
    ensures note { AreNotesOf cache.now note.new }
    ensures known { MatchResult result
        (λ _. known_by cache.now note.new shader ≡ module_for (tokens_at cache.now shader))
        (λ _. (known_by cache.now note.old shader ≡ None) × (known_by cache.now note.new shader ≡ None)) }
    ensures others { (n : ℕ) → n ≢ shader → known_by cache.now note.new n ≡ known_by cache.now note.old n }
{
    gate.at(GateStage::Emit, u64::from(shader));
    let _emitted = cache.get_or_emit(log, shader, note)?;
    gate.at(GateStage::Stored, u64::from(shader));
    Ok(())
}
