// The table of a module: its steps and its group.

ghost use Rattle.std.specs.Prelude.{◌≡◌, ◌+◌, ◌*◌, ◌<◌, ◌≤◌, ◌^◌, IfOk, OnSome, length, slice_get};
ghost use Rattle.spirv_model.specs.Meaning.ModuleDispatch.{group_of};
ghost use Rattle.spirv_run.specs.Decoding.{steps_of};
ghost use Rattle.spirv_run.specs.Tables.{IsFor};

use crate::decode::{behind_header, end_of_ids, instructions, local_size, steps};
use crate::frame::Frame;
use crate::names::Names;
use crate::start::start_of;
use crate::step::Step;
use std::alloc::{AllocError, Global};
use std::marker::Model;

/// A module with its table. A clause sees the module's words.
#[derive(Drop)]
pub struct Table {
    words: Vec<u32>,
    steps: Vec<Step>,
    group: [u32; 3],
}

impl Model for Table {
    ghost use Rattle.std.specs.Prelude.{ℕ, List};
    ghost use Rattle.spirv_run.specs.Tables.{IsTable};

    ghost Value = { List ℕ };

    ghost view = { λ t. t.words.items };

    ghost invariant = { λ t. IsTable t.words.items t.steps.items t.group };
}

impl Table {
    /// The table of a module's words, of which it has a copy.
    pub fn new(alloc: Global, words: &[u32]) -> Result<Table, AllocError>
        ensures { IfOk result (λ table. table ≡ words.now) }
    {
        let ops = instructions(alloc, behind_header(words))?;
        let names = Names::of(alloc, &ops)?;
        let steps = steps(alloc, &names, &ops)?;
        let group = local_size(&ops);
        Ok(Table {
            words: words.to_vec(alloc)?,
            steps,
            group,
        })
    }

    /// The step at a place.
    pub fn step(&self, place: usize) -> Option<Step>
        ensures step { result ≡ slice_get (steps_of self.now) place }
        ensures within { OnSome result (place + 1 < 2 ^ 64) }
    {
        if place < self.steps.len() {
            Some(self.steps[place])
        } else {
            None
        }
    }

    /// The sizes of the module's group.
    pub fn group(&self) -> [u32; 3]
        ensures { result ≡ group_of self.now }
    {
        self.group
    }

    /// A frame for the module's invocations.
    pub fn frame(&self, alloc: Global) -> Result<Frame, AllocError>
        ensures { IfOk result (λ frame. IsFor frame self.now) }
    {
        let mut frame = Frame::new(alloc, end_of_ids(&self.steps))?;
        let start = start_of(&self.steps, &mut frame);
        frame.start_at(start);
        Ok(frame)
    }

    /// The module's words.
    pub fn words(&self) -> &[u32]
        ensures { result.now ≡ self.now }
    {
        &self.words
    }

    /// How many words the module has.
    pub fn word_count(&self) -> usize
        ensures { result ≡ length self.now }
    {
        self.words.len()
    }
}
