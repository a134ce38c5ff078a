//! What is kept from call to call beside the objects, and what each call adds to it.

ghost use Rattle.std.specs.Prelude.{◌≡◌, ◌≢◌, ℕ, ◌<◌, [], false, length, IfOk};
ghost use Rattle.call_log.specs.Call as calls;
ghost use Rattle.call_log.specs.View.{call_view};
ghost use Rattle.d3d_checks.specs.Accepted.{Accepted, Tells};
ghost use Rattle.d3d_checks.specs.Asked.{asked_past};
ghost use Rattle.d3d_lists.specs.declared.recorder.TheConstants.{CONTEXTS};
ghost use Rattle.d3d_model.specs.D3dState.{Objects as State, no_objects};
ghost use Rattle.d3d_model.specs.Past.{Past};
ghost use Rattle.d3d_plan.specs.Keeping.{IsReached, Keeps, KeepsCall, is_of_list};
ghost use Rattle.d3d_state.specs.Meaning.{objects_of};

use crate::tables::{Piece, Tables};
use call_log::Call;
use d3d_effects::{ListUses, keep_call, keep_list, push_bound};
use d3d_lists::CONTEXTS;
use d3d_state::Objects;
use d3d_uses::Uses;
use dx_types::CallNo;
use std::alloc::{AllocError, Global};
use std::collections::BTreeMap;
use std::mem;

/// What is asked of the calls so far, what is kept of the open list of each context, which piece of the tables each live list has,
/// and the tables. A piece stays where its list is destroyed: nothing asks for it.
#[derive(Drop)]
pub(crate) struct Kept {
    pub(crate) alloc: Global,
    pub(crate) uses: Uses,
    pub(crate) opened: Vec<ListUses>,
    pub(crate) lists: BTreeMap<u32, Piece>,
    pub(crate) tables: Tables,
}

impl Kept {
    /// Before the first call.
    pub(crate) fn new(alloc: Global) -> Result<Kept, AllocError>
        ensures { IfOk result (λ k. Keeps no_objects [] k) }
    {
        let mut opened = Vec::new(alloc);
        'contexts: for _i in 0..CONTEXTS {
            opened.push(ListUses::new(alloc))?;
        }
        Ok(Kept {
            alloc,
            uses: Uses::new(alloc),
            opened,
            lists: BTreeMap::new(alloc),
            tables: Tables::new(alloc),
        })
    }

    /// What is kept of the past that a context asks: of the immediate one of all calls so far, of a deferred one of its open list.
    pub(crate) fn asked(&self, context: u16) -> &Uses
        ensures { (o : State) (past : Past) → Keeps o past self.now → context < CONTEXTS
            → Tells (asked_past past o context) o result.now }
    {
        let at = context as usize;
        if context == 0 || at >= self.opened.len() {
            return &self.uses;
        }
        &self.opened[at].uses
    }

    /// Keeps call n, which is accepted on a context, and says which piece of the tables it has. After want of memory nothing is known
    /// of what is kept.
    pub(crate) fn keep(
        &mut self,
        objects: &Objects<'_>,
        n: CallNo,
        context: u16,
        call: &Call<'_>,
    ) -> Result<Piece, AllocError>
        requires reached { IsReached (objects_of objects.now) }
        requires accepted { Accepted (objects_of objects.now) context (call_view call.now) }
        requires kept { (past : Past) × Keeps (objects_of objects.now) past self.old }
        ensures { IfOk result (KeepsCall n (objects_of objects.now) context (call_view call.now) self.old self.new) }
    {
        match *call {
            Call::FinishList { list } => self.finish(context, list),
            Call::ExecuteList { list, .. } => self.execute(objects, n, list),
            _ => {
                if context == 0 {
                    self.bind(objects, n, call)
                } else {
                    self.record(objects, n, context, call)
                }
            }
        }
    }

    // Keeps call n of the immediate context, which is about no list.
    fn bind(
        &mut self,
        objects: &Objects<'_>,
        n: CallNo,
        call: &Call<'_>,
    ) -> Result<Piece, AllocError>
        requires reached { IsReached (objects_of objects.now) }
        requires accepted { Accepted (objects_of objects.now) 0 (call_view call.now) }
        requires unlisted { is_of_list (call_view call.now) ≡ false }
        ensures { IfOk result (KeepsCall n (objects_of objects.now) 0 (call_view call.now) self.old self.new) }
    {
        let start = self.tables.ranges.len();
        push_bound(&mut self.tables.ranges, objects, 0, call)?;
        keep_call(&mut self.uses, n, call, &self.tables.ranges[start..])?;
        self.tables.ranges_from(start)
    }

    // Keeps call n, which the open list of a context records.
    fn record(
        &mut self,
        objects: &Objects<'_>,
        n: CallNo,
        context: u16,
        call: &Call<'_>,
    ) -> Result<Piece, AllocError>
        requires reached { IsReached (objects_of objects.now) }
        requires accepted { Accepted (objects_of objects.now) context (call_view call.now) }
        requires deferred { context ≢ 0 }
        requires unlisted { is_of_list (call_view call.now) ≡ false }
        requires opened { context < length self.old.opened.items }
        ensures { IfOk result (KeepsCall n (objects_of objects.now) context (call_view call.now) self.old self.new) }
    {
        self.opened[context as usize].record(objects, n, context, call)?;
        Ok(Piece {
            start: 0,
            end: 0,
            first: 0,
            last: 0,
        })
    }

    // Keeps the open list of a context as a live one.
    fn finish(&mut self, context: u16, list: u32) -> Result<Piece, AllocError>
        requires { context < length self.old.opened.items }
        ensures { (n : ℕ) (o : State) → IsReached o → length o.contexts ≡ CONTEXTS → Accepted o context (calls.FinishList list)
            → IfOk result (KeepsCall n o context (calls.FinishList list) self.old self.new) }
    {
        let kept = mem::replace(
            &mut self.opened[context as usize],
            ListUses::new(self.alloc),
        );
        let piece = self.tables.append(&kept)?;
        self.lists.insert(list, piece)?;
        Ok(Piece {
            end: piece.start,
            ..piece
        })
    }

    // Keeps what the calls of a live list do that call n executes.
    fn execute(&mut self, objects: &Objects<'_>, n: CallNo, list: u32) -> Result<Piece, AllocError>
        requires reached { IsReached (objects_of objects.now) }
        requires accepted { (flag : ℕ) × Accepted (objects_of objects.now) 0 (calls.ExecuteList list flag) }
        requires kept { (past : Past) × Keeps (objects_of objects.now) past self.old }
        ensures { (flag : ℕ) → Accepted (objects_of objects.now) 0 (calls.ExecuteList list flag)
            → IfOk result (KeepsCall n (objects_of objects.now) 0 (calls.ExecuteList list flag) self.old self.new) }
    {
        let piece = match self.lists.get(&list) {
            Some(piece) => *piece,
            None => unreachable!(),
        };
        keep_list(
            &mut self.uses,
            n,
            objects,
            list,
            self.tables.ranges_of(piece),
            self.tables.ends_of(piece),
        )?;
        Ok(piece)
    }
}
