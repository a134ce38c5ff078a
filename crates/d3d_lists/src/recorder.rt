ghost use Rattle.std.specs.Prelude.{◌≡◌, length};
ghost use Rattle.d3d_lists.specs.declared.recorder.TheConstants.{CONTEXTS};
ghost use Rattle.d3d_lists.specs.Lists.{CountsNames, lists_in};
ghost use Rattle.d3d_lists.specs.Opened.{recorded_in};

use crate::lists::{count_at, is_begun_at, leaves_begun_at, open_lists, push_at, take_at, uncount};
use crate::name::{Name, names_of};
use crate::named::Named;
use crate::numbered::Numbered;
use crate::opened::OpenList;
use dx_types::limits::DEFERRED_CONTEXTS;
use std::alloc::{AllocError, Global};
use std::collections::BTreeMap;

/// How many contexts there are: the immediate one, which has the number 0, and the deferred ones.
pub const CONTEXTS: u16 = DEFERRED_CONTEXTS + 1;

/// The open list of each context, the live lists by ids, and which objects their calls name.
#[derive(Drop)]
pub struct Recorder<'a> {
    opened: Vec<OpenList<'a>>,
    lists: BTreeMap<u32, Vec<Numbered<'a>>>,
    named: Named,
    ghost all: { length opened.items ≡ CONTEXTS },
    ghost counted: { CountsNames named (recorded_in opened.items) (lists_in lists.entries) },
}

impl<'a> Recorder<'a> {
    ghost use Rattle.std.specs.Prelude.{◌<◌, ◌++◌, ◌∷◌, [], List, None, IfOk, OnErr, OnOk, false, replicate, slice_set};
    ghost use Rattle.std.specs.Borrow.{Bor};
    ghost use Rattle.std.specs.List.{list_any};
    ghost use Rattle.std.specs.Option.{option_map};
    ghost use Rattle.base_lemmas.specs.IdMap as ids;
    ghost use Rattle.d3d_model.specs.Stream.{begun_after, begun_in_list};
    ghost use Rattle.d3d_lists.specs.declared.numbered.Numbered.{Numbered as RecordedCall};
    ghost use Rattle.d3d_lists.specs.Calls.{calls_in, numbered};
    ghost use Rattle.d3d_lists.specs.Lists.{some_names};
    ghost use Rattle.d3d_lists.specs.Recorded.{lists_of, recorded_by, recorded_on};

    /// No call is recorded, and no list is live.
    pub fn new(alloc: Global) -> Result<Recorder<'a>, AllocError>
        ensures opened { IfOk result (λ r. recorded_by r ≡ replicate CONTEXTS []) }
        ensures lists { IfOk result (λ r. lists_of r ≡ ids.empty) }
    {
        let opened = open_lists(alloc)?;
        Ok(Recorder {
            opened,
            lists: BTreeMap::new(alloc),
            named: Named::new(alloc),
        })
    }

    /// How many calls the open list of a context has.
    pub fn count(&self, context: u16) -> usize
        requires { context < CONTEXTS }
        ensures { result ≡ length (recorded_on self.now context) }
    {
        count_at(&self.opened, context as usize)
    }

    /// Whether the open list of a context leaves a query begun.
    pub fn is_begun(&self, context: u16, query: u32) -> bool
        requires { context < CONTEXTS }
        ensures { result ≡ begun_after query false (recorded_on self.now context) }
    {
        is_begun_at(&self.opened, context as usize, query)
    }

    /// Whether the open list of a context leaves a query begun that it begins. It goes over the list's calls.
    pub fn leaves_begun(&self, context: u16) -> bool
        requires { context < CONTEXTS }
        ensures { let cs = recorded_on self.now context in
            result ≡ list_any (λ q. begun_after q false cs) (begun_in_list cs) }
    {
        leaves_begun_at(&self.opened, context as usize)
    }

    /// The calls of a live list, in order.
    pub fn list(&self, list: u32) -> Option<&[Numbered<'a>]>
        ensures { option_map (λ (b : Bor (List RecordedCall)). calls_in b.now) result ≡ ids.get (lists_of self.now) list }
    {
        match self.lists.get(&list) {
            Some(calls) => Some(calls.as_slice()),
            None => None,
        }
    }

    /// Whether a call of an open or a live list names an object.
    pub fn names(&self, name: Name) -> bool
        ensures { result ≡ some_names name (recorded_by self.now) (lists_of self.now) }
    {
        self.named.count(name) > 0
    }

    /// One more call is recorded in the open list of a context. Want of memory changes nothing.
    pub fn record(&mut self, context: u16, call: Numbered<'a>) -> Result<(), AllocError>
        requires { context < CONTEXTS }
        ensures recorded { OnOk result (recorded_by self.new ≡ slice_set (recorded_by self.old) context
            (recorded_on self.old context ++ numbered call.entry ∷ [])) }
        ensures unchanged { OnErr result (recorded_by self.new ≡ recorded_by self.old) }
        ensures lists { lists_of self.new ≡ lists_of self.old }
    {
        let (one, two) = names_of(&call.call);
        self.named.make_room(one)?;
        self.named.make_room(two)?;
        push_at(&mut self.opened, context as usize, call)?;
        self.named.raise(one);
        self.named.raise(two);
        Ok(())
    }

    /// The open list of a context becomes a live one under a free id, and the context has an empty one. Want of memory
    /// changes nothing.
    pub fn finish(&mut self, alloc: Global, context: u16, list: u32) -> Result<(), AllocError>
        requires context { context < CONTEXTS }
        requires free { ids.get (lists_of self.old) list ≡ None }
        ensures lists { OnOk result (lists_of self.new ≡ ids.insert (lists_of self.old) list (recorded_on self.old context)) }
        ensures opened { OnOk result (recorded_by self.new ≡ slice_set (recorded_by self.old) context []) }
        ensures lists_stay { OnErr result (lists_of self.new ≡ lists_of self.old) }
        ensures opened_stay { OnErr result (recorded_by self.new ≡ recorded_by self.old) }
    {
        // The id has its place before the calls move, so that want of memory leaves them where they are.
        self.lists.insert(list, Vec::new(alloc))?;
        let calls = take_at(&mut self.opened, context as usize, alloc);
        match self.lists.insert(list, calls) {
            Ok(_) => Ok(()),
            Err(_) => unreachable!(),
        }
    }

    /// A list is live no more, and its calls name nothing. It goes over the list's calls.
    pub fn remove(&mut self, list: u32)
        ensures lists { lists_of self.new ≡ ids.remove (lists_of self.old) list }
        ensures opened { recorded_by self.new ≡ recorded_by self.old }
    {
        if let Some(calls) = self.lists.remove(&list) {
            uncount(&mut self.named, &calls);
        }
    }
}
