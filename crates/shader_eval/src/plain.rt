// The plain instructions that compute.

ghost use Rattle.std.specs.Prelude.{◌≡◌, slice_index};
ghost use Rattle.shader_model.specs.Invocation as model;
ghost use Rattle.shader_eval.specs.Actions.{one_of, two_of, three_of, field_in, first_of_pair, second_of_pair};
ghost use Rattle.shader_eval.specs.Frames.{seen};

use crate::action::{One, Pair, Three, Two};
use crate::frame::Frame;
use crate::lanes::{Lanes, each_insert, each_one, each_pair, each_three, each_two};
use crate::thread::Thread;
use shader_model::{Instr, Target};
use shader_slots::Slots;

impl Frame {
    /// Sets the components that a destination's mask has.
    pub fn set(&mut self, target: Option<Target>, values: Lanes)
        ensures { self.new ≡ record self.old { temps = model.with_target target (λ c. slice_index values c) self.old.temps } }
    {
        match target {
            Some(target) => self.temps.set(&target, values),
            None => {}
        }
    }

    /// A function of one source.
    pub fn by_one(&mut self, of: One, thread: &Thread, slots: &Slots<'_>, instr: &Instr)
        ensures { seen self.new slots.now.words ≡ model.by_one (one_of of) thread.now instr.now (seen self.old slots.now.words) }
    {
        let a = self.source(thread, slots, instr, 0);
        let values = each_one(of, a);
        self.set(instr.first, values);
    }

    /// A function of two sources.
    pub fn by_two(&mut self, of: Two, thread: &Thread, slots: &Slots<'_>, instr: &Instr)
        ensures { seen self.new slots.now.words ≡ model.by_two (two_of of) thread.now instr.now (seen self.old slots.now.words) }
    {
        let a = self.source(thread, slots, instr, 0);
        let b = self.source(thread, slots, instr, 1);
        let values = each_two(of, a, b);
        self.set(instr.first, values);
    }

    /// A function of three sources.
    pub fn by_three(&mut self, of: Three, thread: &Thread, slots: &Slots<'_>, instr: &Instr)
        ensures { seen self.new slots.now.words ≡ model.by_three (three_of of) thread.now instr.now (seen self.old slots.now.words) }
    {
        let a = self.source(thread, slots, instr, 0);
        let b = self.source(thread, slots, instr, 1);
        let c = self.source(thread, slots, instr, 2);
        let values = each_three(of, a, b, c);
        self.set(instr.first, values);
    }

    /// A field put into a number: its width, its first bit, the field and the number.
    pub fn insert(&mut self, thread: &Thread, slots: &Slots<'_>, instr: &Instr)
        ensures { seen self.new slots.now.words ≡ model.by_four field_in thread.now instr.now (seen self.old slots.now.words) }
    {
        let width = self.source(thread, slots, instr, 0);
        let first = self.source(thread, slots, instr, 1);
        let a = self.source(thread, slots, instr, 2);
        let b = self.source(thread, slots, instr, 3);
        let values = each_insert(width, first, a, b);
        self.set(instr.first, values);
    }

    /// Two functions of two sources: all is computed before the first destination is set, and the second is set last.
    pub fn by_pair(&mut self, of: Pair, thread: &Thread, slots: &Slots<'_>, instr: &Instr)
        ensures { seen self.new slots.now.words ≡ model.by_pair (first_of_pair of) (second_of_pair of) thread.now instr.now (seen self.old slots.now.words) }
    {
        let a = self.source(thread, slots, instr, 0);
        let b = self.source(thread, slots, instr, 1);
        let values = each_pair(of, a, b);
        self.set(instr.first, values.0);
        self.set(instr.second, values.1);
    }
}
