// A module's words, put together instruction by instruction.

ghost use Rattle.std.specs.Prelude.{◌≡◌, ◌+◌, ◌^◌, ◌<◌, List, ℕ, [], ◌++◌, length, is_ok, if◌then◌else◌, IfOk, OnOk, Some, None};
ghost use Rattle.spirv_model.specs.Words.{spelled, header};
ghost use Rattle.spirv_model.specs.FirstBad.{first_bad};
ghost use Rattle.spirv_model.specs.declared.limits.TheConstants.{MAX_INSTRUCTION_WORDS};
ghost use Rattle.spirv_words.specs.Reading.{IfBad};

use crate::end::ModuleEnd;
use crate::header::header;
use crate::module::Module;
use spirv_model::header::WORD_COUNT_UNIT;
use std::alloc::{AllocError, Global};
use std::marker::Model;

/// The words of the instructions that were pushed, without the header. A clause sees the list of them.
#[derive(Drop)]
pub struct Builder {
    alloc: Global,
    words: Vec<u32>,
}

impl Model for Builder {
    ghost Value = { List ℕ };

    ghost view = { λ b. b.words.items };
}

impl Builder {
    pub fn new(alloc: Global) -> Builder
        ensures { result ≡ [] }
    {
        Builder {
            alloc,
            words: Vec::new(alloc),
        }
    }

    /// Adds an instruction; its first word has the number of its words and the opcode. Without memory nothing
    /// changes.
    pub fn push(&mut self, opcode: u16, operands: &[u32]) -> Result<(), AllocError>
        requires { length operands.now < MAX_INSTRUCTION_WORDS }
        ensures { self.new ≡ (if is_ok result then self.old ++ spelled opcode operands.now else self.old) }
    {
        let count = operands.len() as u32 + 1;
        self.words
            .push(count * WORD_COUNT_UNIT + u32::from(opcode))?;
        if let Err(end) = self.words.extend_from_slice(operands) {
            self.words.pop();
            return Err(end);
        }
        Ok(())
    }

    /// How many words the instructions so far have.
    pub fn len(&self) -> usize
        ensures { result ≡ length self.now }
    {
        self.words.len()
    }

    /// The module of a header with this bound and the instructions, as `read_module` reads their words.
    pub fn finish(self, bound: u32) -> Result<Module, ModuleEnd>
        requires { 5 + length self < 2 ^ 32 }
        ensures words { IfOk result (λ read. read ≡ header bound ++ self) }
        ensures well_formed { OnOk result (first_bad (header bound ++ self) ≡ None) }
        ensures first_bad_word { IfBad result (λ fault. first_bad (header bound ++ self) ≡ Some fault) }
    {
        let mut words = Vec::new(self.alloc);
        words.extend_from_slice(&header(bound))?;
        words.extend_from_slice(self.words.as_slice())?;
        Module::from_words(self.alloc, words)
    }
}
