// One module per shader, for two notes.
ghost use Rattle.pipe_cache.specs.Cells.{AreNotesOf};

use call_log::{Log, read_log};
use d3d_plan::make_plan;
use dx_io::{Gate, GateStage, NoGate};
use dx_types::CallNo;
use pipe_cache::{Cache, CacheNote, worker_step};
use std::alloc::{AllocError, Global};
use std::sync::atomic::AtomicU64;
use std::sync::atomic::Ordering::SeqCst;
use std::test::Fail;

/// A log of three calls: `0 shader 1` with groups of 1, 1, 1 and no instruction, `0 shader 2` with groups of 4, 2, 1, and
/// `0 shader 1` again, which is refused.
static LOG: [u8; 124] = [
    68, 51, 76, 49, 1, 0, 0, 0, // the header
    3, 0, 0, 0, 28, 0, 0, 0, 1, 0, 0, 0, 1, 0, 0, 0, 6, 0, 0, 0, // call 1
    1, 4, 0, 0, 1, 0, 0, 0, 1, 0, 0, 0, 1, 0, 0, 0, //
    3, 0, 0, 0, 28, 0, 0, 0, 2, 0, 0, 0, 1, 0, 0, 0, 6, 0, 0, 0, // call 2
    1, 4, 0, 0, 4, 0, 0, 0, 2, 0, 0, 0, 1, 0, 0, 0, //
    3, 0, 0, 0, 28, 0, 0, 0, 1, 0, 0, 0, 1, 0, 0, 0, 6, 0, 0, 0, // call 3
    1, 4, 0, 0, 1, 0, 0, 0, 1, 0, 0, 0, 1, 0, 0, 0, //
    0, 0, 0, 0, 0, 0, 0, 0, // the end
];

/// The first word of OpExecutionMode with LocalSize.
const LOCAL_SIZE: u32 = 0x60010;

// The size of a module's groups: the last three words of its execution mode.
fn size_in(words: &[u32]) -> Option<[u32; 3]> {
    let at = words.iter().position(|word| *word == LOCAL_SIZE)?;
    let x = words.get(at.checked_add(3)?)?;
    let y = words.get(at.checked_add(4)?)?;
    let z = words.get(at.checked_add(5)?)?;
    Some([*x, *y, *z])
}

// The size of the groups of a shader's module, if there is one.
fn seen(cache: &Cache, shader: CallNo, note: &mut CacheNote) -> Option<[u32; 3]>
    requires { AreNotesOf cache.now note.old }
    ensures { AreNotesOf cache.now note.new }
{
    if !cache.has(shader) {
        return None;
    }
    let module = cache.get(shader, note)?;
    size_in(module.words())
}

// The same, where a module that isn't there is emitted.
fn emitted(
    cache: &Cache,
    log: &Log<'_>,
    shader: CallNo,
    note: &mut CacheNote,
) -> Result<Option<[u32; 3]>, AllocError>
    requires { AreNotesOf cache.now note.old }
    ensures { AreNotesOf cache.now note.new }
{
    if !cache.has(shader) {
        return Ok(None);
    }
    let module = cache.get_or_emit(log, shader, note)?;
    Ok(size_in(module.words()))
}

// A worker's step for a shader of the cache.
fn works<G: Gate>(
    cache: &Cache,
    log: &Log<'_>,
    shader: CallNo,
    note: &mut CacheNote,
    gate: &G,
) -> Result<bool, AllocError>
    requires { AreNotesOf cache.now note.old }
    ensures { AreNotesOf cache.now note.new }
{
    if !cache.has(shader) {
        return Ok(false);
    }
    worker_step(cache, log, shader, note, gate)?;
    Ok(true)
}

#[test]
fn two_notes_see_one_module(rt: HostRuntime) -> Result<(), Fail> {
    let log = read_log(rt.alloc(), &LOG)?;
    let plan = make_plan(rt.alloc(), &log)?;
    let cache = Cache::new(rt.alloc(), &log, &plan)?;
    assert!(rt; cache.has(1) && cache.has(2) && !cache.has(0) && !cache.has(3) && !cache.has(4));
    let mut first = cache.note(rt.alloc())?;
    let mut second = cache.note(rt.alloc())?;
    assert_eq!(rt; seen(&cache, 1, &mut second), None);
    assert_eq!(rt; emitted(&cache, &log, 1, &mut first)?, Some([1, 1, 1]));
    assert_eq!(rt; seen(&cache, 1, &mut second), Some([1, 1, 1]));
    assert_eq!(rt; seen(&cache, 2, &mut second), None);
    assert!(rt; works(&cache, &log, 2, &mut second, &NoGate::new())?);
    assert_eq!(rt; seen(&cache, 2, &mut first), Some([4, 2, 1]));
    assert_eq!(rt; seen(&cache, 1, &mut first), Some([1, 1, 1]));
    Ok(())
}

// Keeps a digit for each call: the number of the shader before its module is set, and two more behind it.
#[derive(Drop)]
struct Digits {
    kept: AtomicU64,
}

impl Gate for Digits {
    fn at(&self, stage: GateStage, number: u64) {
        let digit = match stage {
            GateStage::Emit => number,
            GateStage::Stored => number.wrapping_add(2),
            _ => 9,
        };
        let kept = self.kept.load(SeqCst);
        self.kept
            .store(kept.wrapping_mul(10).wrapping_add(digit), SeqCst);
    }
}

#[test]
fn a_worker_calls_the_gate_before_and_behind(rt: HostRuntime) -> Result<(), Fail> {
    let log = read_log(rt.alloc(), &LOG)?;
    let plan = make_plan(rt.alloc(), &log)?;
    let cache = Cache::new(rt.alloc(), &log, &plan)?;
    let mut note = cache.note(rt.alloc())?;
    let gate = Digits {
        kept: AtomicU64::new(0),
    };
    assert!(rt; works(&cache, &log, 1, &mut note, &gate)?);
    assert!(rt; works(&cache, &log, 2, &mut note, &gate)?);
    assert_eq!(rt; gate.kept.load(SeqCst), 1324);
    Ok(())
}
