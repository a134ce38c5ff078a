// The cells of all shaders of a log.

ghost use Rattle.std.specs.Prelude.{◌≡◌, ◌≢◌, ◌↔◌, ℕ, ◌-◌, ◌≤◌, length, Some, None, IfOk, IfSome, IsTrue, OnOk, MatchOption, MatchResult};
ghost use Rattle.once_cell.specs.Once.{Agrees};
ghost use Rattle.call_log.specs.Grammar.{calls_of};
ghost use Rattle.d3d_plan.specs.Planned.{plan_of};
ghost use Rattle.pipe_cache.specs.Cells.{AreNotesOf, HasShader, known_by, place_in, shaders_in, tokens_at};
ghost use Rattle.pipe_cache.specs.Created.{AreTables, created};
ghost use Rattle.pipe_cache.specs.Modules.{module_for};

use crate::cell::{ShaderCell, ShaderNote};
use crate::source::Source;
use crate::tokens::tokens;
use call_log::Log;
use d3d_plan::Plan;
use dx_types::CallNo;
use spirv_words::Module;
use std::alloc::{AllocError, Global};
use std::marker::Model;

/// One module for each shader of a log, shared by threads. A clause sees its cells, in order of the calls that create
/// their shaders.
#[derive(Drop)]
pub struct Cache {
    alloc: Global,
    /// The calls that create the shaders, in order.
    calls: Vec<CallNo>,
    cells: Vec<ShaderCell>,
}

impl Model for Cache {
    ghost use Rattle.std.specs.Prelude.{◌≡◌, List};
    ghost use Rattle.pipe_cache.specs.Cells.{Cell, IsRising, calls_in};

    ghost Value = { List Cell };

    ghost view = { λ c. c.cells.items };

    ghost invariant = { λ c. (c.calls.items ≡ calls_in c.cells.items) × IsRising c.calls.items };
}

/// What one thread knows of a cache's modules. A clause sees what is noted of each cell.
#[derive(Drop)]
pub struct CacheNote {
    notes: Vec<ShaderNote>,
}

impl Model for CacheNote {
    ghost use Rattle.std.specs.Prelude.{List};
    ghost use Rattle.pipe_cache.specs.Cells.{Noted};

    ghost Value = { List Noted };

    ghost view = { λ n. n.notes.items };
}

impl Cache {
    /// No module is there yet. The plan is that of the log. It takes a copy of the shaders' token bytes.
    pub fn new(alloc: Global, log: &Log<'_>, plan: &Plan) -> Result<Cache, AllocError>
        requires { plan.now ≡ plan_of (calls_of log.now.frames) (length log.now.frames) }
        ensures { IfOk result (λ c. shaders_in c ≡ created plan.now) }
    {
        let mut calls = Vec::new(alloc);
        let mut cells = Vec::new(alloc);
        'each_call: for i in 0..log.count() {
            add_created(alloc, log, plan, i + 1, &mut calls, &mut cells)?;
        }
        Ok(Cache {
            alloc,
            calls,
            cells,
        })
    }

    /// A note that knows no module.
    pub fn note(&self, alloc: Global) -> Result<CacheNote, AllocError>
        ensures note { IfOk result (λ n. AreNotesOf self.now n) }
        ensures nothing { IfOk result (λ n. (call : ℕ) → known_by self.now n call ≡ None) }
    {
        let mut notes = Vec::new(alloc);
        'cells: for cell in &self.cells {
            notes.push(cell.note())?;
        }
        Ok(CacheNote { notes })
    }

    /// Whether a call creates a shader of the cache.
    pub fn has(&self, shader: CallNo) -> bool
        ensures { IsTrue result ↔ HasShader self.now shader }
    {
        self.calls.binary_search(&shader).is_ok()
    }

    /// Where the cell of a shader is.
    fn place(&self, shader: CallNo) -> usize
        requires { HasShader self.now shader }
        ensures { result ≡ place_in self.now shader }
    {
        match self.calls.binary_search(&shader) {
            Ok(place) => place,
            Err(_) => unreachable!(),
        }
    }

    /// The module of the shader that a call creates, where one was emitted. It never answers None, or another module,
    /// to a note that knows one.
    pub fn get(&self, shader: CallNo, note: &mut CacheNote) -> Option<&Module>
        requires note { AreNotesOf self.now note.old }
        requires shader { HasShader self.now shader }
        ensures note { AreNotesOf self.now note.new }
        ensures known { MatchOption result
            ((known_by self.now note.old shader ≡ None) × (known_by self.now note.new shader ≡ None))
            (λ m. (known_by self.now note.new shader ≡ Some m.now)
            × Agrees (known_by self.now note.old shader) m.now) }
        ensures others { (n : ℕ) → n ≢ shader → known_by self.now note.new n ≡ known_by self.now note.old n }
        ensures means { IfSome result (λ m. module_for (tokens_at self.now shader) ≡ Some m.now) }
    {
        let place = self.place(shader);
        self.cells[place].get(&mut note.notes[place])
    }

    /// The module of the shader that a call creates, which is emitted where there is none. Only want of memory refuses,
    /// and never a note that knows the module; what notes know is then as it was. The log is that of the cache, which
    /// keeps what it needs of it.
    pub fn get_or_emit(
        &self,
        _log: &Log<'_>,
        shader: CallNo,
        note: &mut CacheNote,
    ) -> Result<&Module, AllocError>
        requires note { AreNotesOf self.now note.old }
        requires shader { HasShader self.now shader }
        ensures note { AreNotesOf self.now note.new }
        ensures known { MatchResult result
            (λ m. (known_by self.now note.new shader ≡ Some m.now)
            × Agrees (known_by self.now note.old shader) m.now)
            (λ _. (known_by self.now note.old shader ≡ None) × (known_by self.now note.new shader ≡ None)) }
        ensures others { (n : ℕ) → n ≢ shader → known_by self.now note.new n ≡ known_by self.now note.old n }
        ensures means { IfOk result (λ m. module_for (tokens_at self.now shader) ≡ Some m.now) }
    {
        let place = self.place(shader);
        self.cells[place].get_or_emit(self.alloc, &mut note.notes[place])
    }
}

// Puts the shader that call n creates, if it creates one, behind those of the calls before.
fn add_created(
    alloc: Global,
    log: &Log<'_>,
    plan: &Plan,
    n: CallNo,
    calls: &mut Vec<CallNo>,
    cells: &mut Vec<ShaderCell>,
) -> Result<(), AllocError>
    requires plan { plan.now ≡ plan_of (calls_of log.now.frames) (length log.now.frames) }
    requires first { 1 ≤ n }
    requires last { n ≤ length log.now.frames }
    requires before { AreTables plan.now (n - 1) calls.old.items cells.old.items }
    ensures { OnOk result (AreTables plan.now n calls.new.items cells.new.items) }
{
    let Some(shader) = plan.shader(n) else {
        return Ok(());
    };
    let source = Source::share(alloc, tokens(log, n), shader)?;
    cells.push(ShaderCell::new(alloc, source))?;
    calls.push(n)?;
    Ok(())
}
