// The cell of one shader's module, and what a thread has seen of it.

ghost use Rattle.std.specs.Prelude.{◌≡◌, Some, None, IfOk, IfSome, MatchOption, MatchResult};
ghost use Rattle.std.specs.Arc.{arc_value};
ghost use Rattle.once_cell.specs.Once.{Agrees};
ghost use Rattle.pipe_cache.specs.Cells.{IsNoteOf, known_of, unnoted_of};
ghost use Rattle.pipe_cache.specs.Made.{seen_of};
ghost use Rattle.pipe_cache.specs.Modules.{module_for};

use crate::made::Made;
use crate::source::Source;
use once_cell::race::{Note, OnceBox};
use spirv_words::Module;
use std::alloc::{AllocError, Global};
use std::marker::Model;
use std::sync::Arc;

/// The cell of one shader's module.
#[derive(Drop)]
pub(crate) struct ShaderCell {
    source: Arc<Source, Global>,
    cell: OnceBox<Made>,
}

impl Model for ShaderCell {
    ghost use Rattle.std.specs.Arc.{arc_value};
    ghost use Rattle.once_cell.specs.Once.{cell_name};
    ghost use Rattle.pipe_cache.specs.Cells.{Cell};

    ghost Value = { Cell };

    ghost view = { λ c. record {
      call = (arc_value c.source).shader.call;
      words = (arc_value c.source).words.items;
      name = cell_name c.cell;
    } };
}

/// What a thread has seen of one cell. Nothing but its type is known of a value in a cell, so a thread compares the
/// token bytes that a module was emitted from with those of the cell's shader, the first time that it sees the module.
#[derive(Drop)]
pub(crate) struct ShaderNote {
    note: Note<Made>,
    checked: bool,
}

impl Model for ShaderNote {
    ghost use Rattle.std.specs.Option.{option_map};
    ghost use Rattle.pipe_cache.specs.Cells.{Noted};
    ghost use Rattle.pipe_cache.specs.Made.{seen_of};

    ghost Value = { Noted };

    ghost view = { λ n. record { name = n.note.cell; seen = option_map seen_of n.note.known; checked = n.checked } };
}

impl ShaderCell {
    /// An empty cell.
    pub(crate) fn new(alloc: Global, source: Arc<Source, Global>) -> ShaderCell
        ensures call { result.call ≡ (arc_value source).shader.call }
        ensures words { result.words ≡ (arc_value source).words.items }
    {
        ShaderCell {
            source,
            cell: OnceBox::new(alloc),
        }
    }

    /// A note that knows nothing.
    pub(crate) fn note(&self) -> ShaderNote
        ensures { result ≡ unnoted_of self.now }
    {
        ShaderNote {
            note: self.cell.note(),
            checked: false,
        }
    }

    /// The module that was seen, if it is one of the cell's shader.
    fn checked<'a>(&self, note: &mut ShaderNote, made: &'a Made) -> Option<&'a Module>
        requires note { IsNoteOf self.now note.old }
        requires seen { note.old.seen ≡ Some (seen_of made.now) }
        ensures note { IsNoteOf self.now note.new }
        ensures known { MatchOption result
            ((known_of note.old ≡ None) × (known_of note.new ≡ None))
            (λ m. (known_of note.new ≡ Some m.now) × Agrees (known_of note.old) m.now) }
        ensures means { IfSome result (λ m. module_for self.now.words ≡ Some m.now) }
    {
        if note.checked {
            return Some(made.emitted());
        }
        if !self.source.spells(made.source()) {
            return None;
        }
        note.checked = true;
        Some(made.emitted())
    }

    /// The module, where there is one.
    pub(crate) fn get(&self, note: &mut ShaderNote) -> Option<&Module>
        requires { IsNoteOf self.now note.old }
        ensures note { IsNoteOf self.now note.new }
        ensures known { MatchOption result
            ((known_of note.old ≡ None) × (known_of note.new ≡ None))
            (λ m. (known_of note.new ≡ Some m.now) × Agrees (known_of note.old) m.now) }
        ensures means { IfSome result (λ m. module_for self.now.words ≡ Some m.now) }
    {
        let made = self.cell.get_as(&mut note.note)?;
        self.checked(note, made)
    }

    /// The module, which is emitted where there is none.
    pub(crate) fn get_or_emit(
        &self,
        alloc: Global,
        note: &mut ShaderNote,
    ) -> Result<&Module, AllocError>
        requires { IsNoteOf self.now note.old }
        ensures note { IsNoteOf self.now note.new }
        ensures known { MatchResult result
            (λ m. (known_of note.new ≡ Some m.now) × Agrees (known_of note.old) m.now)
            (λ _. (known_of note.old ≡ None) × (known_of note.new ≡ None)) }
        ensures means { IfOk result (λ m. module_for self.now.words ≡ Some m.now) }
    {
        let source = &self.source;
        let made = self.cell.get_or_try_init_as(
            move || -> Result<Box<Made>, AllocError> {
                Ok(Box::new(alloc, Made::emit(alloc, source)?)?)
            },
            &mut note.note,
        )?;
        match self.checked(note, made) {
            Some(emitted) => Ok(emitted),
            None => Err(AllocError),
        }
    }
}
