// The instructions that reach a view.

ghost use Rattle.std.specs.Prelude.{◌≡◌, ◌<◌, length, option_map, slice_index, IfSome};
ghost use Rattle.shader_model.specs.Fields as fields;
ghost use Rattle.shader_model.specs.Invocation as model;
ghost use Rattle.shader_slots.specs.Bound.{with_written};
ghost use Rattle.shader_eval.specs.Acted.{acted, changed, offset_by, value_by};
ghost use Rattle.shader_eval.specs.Accesses.{view_as, with_named};
ghost use Rattle.shader_eval.specs.Frames.{seen};
ghost use Rattle.shader_eval.specs.Lanes.{lanes};

use crate::action::{Action, Change};
use crate::frame::Frame;
use crate::lanes::Lanes;
use crate::thread::Thread;
use crate::work::two;
use dx_types::Form;
use shader_model::{Declared, Instr, SlotUse};
use shader_slots::{Slots, loaded, place, view_len, word_at};

/// A slot that an instruction names, with what it is declared as.
#[derive(Clone, Copy)]
pub struct View {
    pub name: SlotUse,
    pub declared: Declared,
}

/// What a use of a slot is declared as: an unordered access view by opcode 5, a resource by opcode 4.
fn used_as(name: SlotUse, declared: &[Declared]) -> Option<Declared>
    ensures { result ≡ fields.used_as name declared.now }
{
    let opcode = if name.writable { 5 } else { 4 };
    for declaration in declared {
        if declaration.opcode == opcode && declaration.slot == name.slot {
            return Some(*declaration);
        }
    }
    None
}

/// The view that an instruction names.
fn view_of(instr: &Instr, declared: &[Declared]) -> Option<View>
    ensures { option_map view_as result ≡ model.view_of declared.now instr.now.slot }
{
    let name = instr.slot?;
    let declared = used_as(name, declared)?;
    Some(View { name, declared })
}

/// The components of a load at an address or element, and an offset.
fn loaded_lanes(slots: &Slots<'_>, view: &View, a: u32, o: u32) -> Lanes
    ensures { result ≡ lanes (model.loaded view.now.declared.form view.now.declared (model.view_words view.now.name slots.now.words) a o) }
{
    [
        loaded(slots, &view.name, &view.declared, a, o, 0),
        loaded(slots, &view.name, &view.declared, a, o, 1),
        loaded(slots, &view.name, &view.declared, a, o, 2),
        loaded(slots, &view.name, &view.declared, a, o, 3),
    ]
}

/// Stores a component, where the extra has it and its word is there.
fn store_one(slots: &mut Slots<'_>, view: &View, extra: u16, a: u32, o: u32, c: u32, value: u32)
    requires { c < 4 }
    ensures { slots.new ≡ with_written view.now.name.slot (model.stored view.now.declared extra a o (λ k. value) c (model.words_in slots.old.words.writes view.now.name.slot)) slots.old }
{
    let slot = view.name.slot as usize;
    if (extra as u32 >> c) % 2 == 1 {
        let at = place(&view.declared, slots.write_len(slot), a, o, c);
        if let Some(i) = at {
            slots.set_word(slot, i, value);
        }
    }
}

/// Stores the components that the extra has, each with its own check.
fn store_lanes(slots: &mut Slots<'_>, view: &View, extra: u16, a: u32, o: u32, values: Lanes)
    ensures { let put = model.stored view.now.declared extra a o (λ c. slice_index values c) in slots.new ≡ with_written view.now.name.slot (put 3 (put 2 (put 1 (put 0 (model.words_in slots.old.words.writes view.now.name.slot))))) slots.old }
{
    store_one(slots, view, extra, a, o, 0, values[0]);
    store_one(slots, view, extra, a, o, 1, values[1]);
    store_one(slots, view, extra, a, o, 2, values[2]);
    store_one(slots, view, extra, a, o, 3, values[3]);
}

/// Sets a word of the view that an access names, where it is there and the view can be written.
fn write_at(slots: &mut Slots<'_>, name: &SlotUse, at: Option<usize>, value: u32)
    requires { IfSome at (λ i. i < length (model.view_words name.now slots.old.words)) }
    ensures { slots.new ≡ with_named name.now (model.with_word (model.view_words name.now slots.old.words) at value) slots.old }
{
    if !name.writable {
        return;
    }
    if let Some(i) = at {
        slots.set_word(name.slot as usize, i, value);
    }
}

/// An atomic's new word, by the values of its third and fourth sources.
fn changed(of: Change, x: u32, y: u32, old: u32) -> u32
    ensures { result ≡ changed of x y old }
{
    match of {
        Change::Combine(of) => two(of, old, x),
        Change::Exchange => x,
        Change::CompareExchange => { if old == x { y } else { old } }
    }
}

impl Frame {
    /// The x of an instruction's k-th source.
    fn scalar(&self, thread: &Thread, slots: &Slots<'_>, instr: &Instr, k: usize) -> u32
        requires { k < 4 }
        ensures { result ≡ model.source thread.now (seen self.now slots.now.words) instr.now k 0 }
    {
        self.source(thread, slots, instr, k)[0]
    }

    /// The offset of an access: the second source where the view is structured.
    fn offset(&self, form: Form, thread: &Thread, slots: &Slots<'_>, instr: &Instr) -> u32
        ensures { result ≡ offset_by form (model.source thread.now (seen self.now slots.now.words) instr.now 1 0) }
    {
        match form {
            Form::Structured => self.scalar(thread, slots, instr, 1),
            Form::Raw | Form::Typed => 0,
        }
    }

    /// What a store stores: its last source.
    fn stored(&self, form: Form, thread: &Thread, slots: &Slots<'_>, instr: &Instr) -> Lanes
        ensures { result ≡ lanes (model.source thread.now (seen self.now slots.now.words) instr.now (value_by form)) }
    {
        let last = match form {
            Form::Structured => 2,
            Form::Raw | Form::Typed => 1,
        };
        self.source(thread, slots, instr, last)
    }

    /// A load, of which each component has its own check.
    pub fn load(
        &mut self,
        form: Form,
        thread: &Thread,
        declared: &[Declared],
        slots: &Slots<'_>,
        instr: &Instr,
    )
        ensures { seen self.new slots.now.words ≡ acted (Action.Load form) declared.now thread.now instr.now (seen self.old slots.now.words) }
    {
        let Some(view) = view_of(instr, declared) else {
            return;
        };
        let a = self.scalar(thread, slots, instr, 0);
        let o = self.offset(form, thread, slots, instr);
        let values = loaded_lanes(slots, &view, a, o);
        self.set(instr.first, values);
    }

    /// A store, of which each component has its own check.
    pub fn store(
        &self,
        form: Form,
        thread: &Thread,
        declared: &[Declared],
        slots: &mut Slots<'_>,
        instr: &Instr,
    )
        ensures state { seen self.now slots.new.words ≡ acted (Action.Store form) declared.now thread.now instr.now (seen self.now slots.old.words) }
        ensures around { slots.new.around ≡ slots.old.around }
    {
        let Some(view) = view_of(instr, declared) else {
            return;
        };
        if !view.name.writable {
            return;
        }
        let a = self.scalar(thread, slots, instr, 0);
        let o = self.offset(form, thread, slots, instr);
        let values = self.stored(form, thread, slots, instr);
        store_lanes(slots, &view, instr.extra, a, o, values);
    }

    /// An atomic, once whatever its mask: the old word goes to each component of the mask, 0 outside the view.
    pub fn change(
        &mut self,
        of: Change,
        thread: &Thread,
        declared: &[Declared],
        slots: &mut Slots<'_>,
        instr: &Instr,
    )
        ensures state { seen self.new slots.new.words ≡ acted (Action.Change of) declared.now thread.now instr.now (seen self.old slots.old.words) }
        ensures around { slots.new.around ≡ slots.old.around }
    {
        let Some(view) = view_of(instr, declared) else {
            return;
        };
        let a = self.scalar(thread, slots, instr, 0);
        let o = self.scalar(thread, slots, instr, 1);
        let x = self.scalar(thread, slots, instr, 2);
        let y = self.scalar(thread, slots, instr, 3);
        let at = place(&view.declared, view_len(slots, &view.name), a, o, 0);
        let old = word_at(slots, &view.name, at);
        let new = changed(of, x, y, old);
        write_at(slots, &view.name, at, new);
        self.set(instr.first, [old, old, old, old]);
    }
}
