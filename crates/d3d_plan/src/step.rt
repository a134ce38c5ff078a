ghost use Rattle.std.specs.Prelude.{◌≡◌, ℕ, ◌++◌, ◌∷◌, ◌<◌, ◌^◌, [], List, Some, false, IfOk, OnOk};
ghost use Rattle.std.specs.Option.{option_map};
ghost use Rattle.call_log.specs.View.{call_view};
ghost use Rattle.d3d_checks.specs.Accepted.{Accepted, Tells, is_draw};
ghost use Rattle.d3d_checks.specs.Created.{shader_made, token_words};
ghost use Rattle.d3d_model.specs.InOrder.{State, accepted, initial, unless_refused, verdict_in};
ghost use Rattle.d3d_model.specs.Past.{Past};
ghost use Rattle.d3d_model.specs.Uses.{use_in};
ghost use Rattle.d3d_plan.specs.Keeping.{IsReached, Keeps};
ghost use Rattle.d3d_plan.specs.Planned.{Planned, planned_as, planned_by, refused_as, span_in};
ghost use Rattle.d3d_plan.specs.Shown.{Shows, span_of};
ghost use Rattle.d3d_plan.specs.Stands.{Stands};
ghost use Rattle.d3d_state.specs.Meaning.{objects_of};

use crate::entry::{Entry, Words};
use crate::kept::Kept;
use crate::tables::Piece;
use call_log::Call;
use d3d_checks::{decode_created, verdict};
use d3d_effects::apply;
use d3d_state::{LiveShader, Objects, share};
use d3d_uses::Uses;
use dx_types::{CallNo, Refusal};
use std::alloc::{AllocError, Global};

/// How many bytes of a record stand before a shader's token words: its head, and the shader's id.
const WORDS_IN_RECORD: u64 = 12;

/// What a planner keeps from call to call: the live objects, what is kept beside them, and what is planned so far.
#[derive(Drop)]
pub(crate) struct Planner<'a> {
    pub(crate) objects: Objects<'a>,
    pub(crate) kept: Kept,
    pub(crate) entries: Vec<Entry>,
}

impl<'a> Planner<'a> {
    /// Before the first call.
    pub(crate) fn new(alloc: Global) -> Result<Planner<'a>, AllocError>
        ensures stands { IfOk result (λ p. Stands initial p.objects p.kept) }
        ensures shows { IfOk result (λ p. Shows p.entries.items p.kept.tables []) }
    {
        let objects = Objects::new(alloc)?;
        let kept = Kept::new(alloc)?;
        Ok(Planner {
            objects,
            kept,
            entries: Vec::new(alloc),
        })
    }

    /// Plans call n of the log, whose record begins at byte `at` of the input.
    pub(crate) fn plan_call(
        &mut self,
        alloc: Global,
        n: CallNo,
        at: u64,
        context: u16,
        call: &Call<'a>,
    ) -> Result<(), AllocError>
        requires place { at < 2 ^ 63 }
        requires some_state { (s : State) × (IsReached s.objects × Stands s self.old.objects self.old.kept) }
        requires no_draw { is_draw (call_view call.now) ≡ false }
        ensures stands { OnOk result ((s : State) → Stands s self.old.objects self.old.kept
            → Stands (unless_refused n s (record { context = context; call = call_view call.now })
            (verdict_in s (record { context = context; call = call_view call.now }))) self.new.objects self.new.kept) }
        ensures shows { OnOk result ((s : State) (plan : List Planned) → Stands s self.old.objects self.old.kept
            → Shows self.old.entries.items self.old.kept.tables plan
            → Shows self.new.entries.items self.new.kept.tables
            (plan ++ planned_by n at s (Some (record { context = context; call = call_view call.now })) ∷ [])) }
    {
        let shader = decode_created(alloc, n, call)?;
        let uses = self.kept.asked(context);
        match verdict(&self.objects, uses, context, call, shader.is_some()) {
            Some(why) => self.plan_refused(why),
            None => self.plan_accepted(n, at, context, call, shader),
        }
    }

    /// Plans a call that is refused.
    fn plan_refused(&mut self, why: Refusal) -> Result<(), AllocError>
        ensures objects { self.new.objects ≡ self.old.objects }
        ensures kept { self.new.kept ≡ self.old.kept }
        ensures shows { OnOk result ((plan : List Planned) → Shows self.old.entries.items self.old.kept.tables plan
            → Shows self.new.entries.items self.new.kept.tables (plan ++ refused_as why ∷ [])) }
    {
        self.entries.push(Entry {
            verdict: Some(why),
            last_use: None,
            words: None,
            shader: None,
            piece: Piece {
                start: 0,
                end: 0,
                first: 0,
                last: 0,
            },
        })?;
        Ok(())
    }

    /// Plans call n of the log, which is accepted on a context, with the shader that it creates, if it creates one.
    fn plan_accepted(
        &mut self,
        n: CallNo,
        at: u64,
        context: u16,
        call: &Call<'a>,
        shader: Option<LiveShader>,
    ) -> Result<(), AllocError>
        requires place { at < 2 ^ 63 }
        requires reached { IsReached (objects_of self.old.objects) }
        requires accepted { Accepted (objects_of self.old.objects) context (call_view call.now) }
        requires kept { (past : Past) × Keeps (objects_of self.old.objects) past self.old.kept }
        requires shader { shader ≡ shader_made n (call_view call.now) }
        ensures stands { OnOk result ((s : State) → Stands s self.old.objects self.old.kept
            → Stands (accepted n s context (call_view call.now)) self.new.objects self.new.kept) }
        ensures shows { OnOk result ((s : State) (plan : List Planned) → Stands s self.old.objects self.old.kept
            → Shows self.old.entries.items self.old.kept.tables plan
            → Shows self.new.entries.items self.new.kept.tables
            (plan ++ planned_as n at s context (call_view call.now) ∷ [])) }
    {
        let last = last_use(&self.objects, &self.kept.uses, call);
        let words = words_of(at, call)?;
        let shared = share(shader.as_ref())?;
        let piece = self.kept.keep(&self.objects, n, context, call)?;
        apply(&mut self.objects, n, context, call, shader)?;
        self.entries.push(Entry {
            verdict: None,
            last_use: last,
            words,
            shader: shared,
            piece,
        })?;
        Ok(())
    }
}

/// The call that an accepted readback, or an accepted question for a query's result, waits for.
fn last_use(objects: &Objects<'_>, uses: &Uses, call: &Call<'_>) -> Option<CallNo>
    requires { (x : ℕ) × Accepted (objects_of objects.now) x (call_view call.now) }
    ensures { (s : State) → objects_of objects.now ≡ s.objects → Tells s.past (objects_of objects.now) uses.now
        → result ≡ use_in s (call_view call.now) }
{
    match *call {
        Call::MapRead { res, .. } => uses.last_binding(res),
        Call::GetData { query, .. } => objects.query(query)?.ended,
        _ => None,
    }
}

/// Where the token words of a call that creates a shader stand: behind the head of its record, which begins at byte `at`, and
/// the shader's id. No input is so long that 32 bits don't count its bytes.
fn words_of(at: u64, call: &Call<'_>) -> Result<Option<Words>, AllocError>
    requires { at < 2 ^ 63 }
    ensures { IfOk result (λ words. option_map span_of words ≡ span_in at (token_words (call_view call.now))) }
{
    let Call::CreateShader { words, .. } = *call else {
        return Ok(None);
    };
    let (Ok(start), Ok(len)) = (
        u32::try_from(at + WORDS_IN_RECORD),
        u32::try_from(words.len()),
    ) else {
        return Err(AllocError);
    };
    Ok(Some(Words { start, len }))
}
