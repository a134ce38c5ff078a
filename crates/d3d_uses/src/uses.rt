ghost use Rattle.std.specs.Prelude.{◌≡◌, ℕ, [], ◌∷◌, map, take, true, false, None, OnErr, OnOk};
ghost use Rattle.base_lemmas.specs.IdMap as ids;
ghost use Rattle.d3d_model.specs.Past.{Binds, Discards, Past, is_bound, last_binding, was_discarded};
ghost use Rattle.d3d_uses.specs.Summary.{BindsAt, Forgets, Records, RecordsMaking, Summarises, untouched, was_made};

use crate::held::Held;
use dx_types::ResRange;
use std::alloc::{AllocError, Global};
use std::collections::BTreeMap;
use std::marker::Model;

/// What is kept in place of the calls so far: of each buffer the last call that binds some of it, and which of its bytes are
/// bound since it was made or last discarded. Clauses say which pasts it summarises, buffer by buffer.
#[derive(Drop)]
pub struct Uses {
    alloc: Global,
    // what is kept, by ids; nothing of a buffer that no call touches
    held: BTreeMap<u32, Held>,
}

impl Model for Uses {
    ghost use Rattle.base_lemmas.specs.CodeMap.{map_of};
    ghost use Rattle.d3d_uses.specs.Summary as summary;

    ghost Value = { summary.Uses };

    ghost coded = { summary.uses_code };

    ghost view = { λ u. map_of (λ h. h) u.held.entries };
}

impl Uses {
    /// No call touches a buffer.
    pub fn new(alloc: Global) -> Uses
        ensures { (res : ℕ) → Summarises [] result res }
    {
        Uses {
            alloc,
            held: BTreeMap::new(alloc),
        }
    }

    /// A call makes a buffer, also under the id of one that was destroyed.
    pub fn made(&mut self, id: u32)
        ensures { RecordsMaking self.old id self.new }
    {
        self.forget(id);
    }

    /// A buffer is destroyed, and nothing is kept of it. What is kept of the others stands.
    pub fn removed(&mut self, id: u32)
        ensures { Forgets self.old id self.new }
    {
        self.forget(id);
    }

    /// A call discards a buffer.
    pub fn discarded(&mut self, id: u32) -> Result<(), AllocError>
        ensures discarded { OnOk result ((call : ℕ) → Records self.old call (Discards id ∷ []) self.new) }
        ensures unchanged { OnErr result (self.new ≡ self.old) }
    {
        match self.held.get_mut(&id) {
            Some(held) => {
                held.discard();
                Ok(())
            }
            None => self.discarded_first(id),
        }
    }

    /// A call binds a range, which may be without a byte.
    pub fn bound(&mut self, call: u32, range: &ResRange) -> Result<(), AllocError>
        ensures bound { OnOk result (Records self.old call (Binds range.now ∷ []) self.new) }
        ensures unchanged { OnErr result (self.new ≡ self.old) }
    {
        match self.held.get_mut(&range.res) {
            Some(held) => held.bind(call, range.from, range.to),
            None => self.bound_first(call, range),
        }
    }

    /// A call binds ranges. Where memory runs out, it has bound the first of them.
    pub fn bound_all(&mut self, call: u32, ranges: &[ResRange]) -> Result<(), AllocError>
        ensures bound { OnOk result (Records self.old call (map Binds ranges.now) self.new) }
        ensures front { OnErr result ((k : ℕ) × Records self.old call (map Binds (take k ranges.now)) self.new) }
    {
        'each: for range in ranges {
            self.bound(call, range)?;
        }
        Ok(())
    }

    /// Whether a byte of a range is bound since its buffer was made or last discarded.
    pub fn is_bound(&self, range: &ResRange) -> bool
        ensures { (past : Past) → Summarises past self.now range.now.res → result ≡ is_bound past range.now }
    {
        match self.held.get(&range.res) {
            Some(held) => held.bound.meets(range.from, range.to),
            None => false,
        }
    }

    /// The last call that binds some of a buffer since it was made.
    pub fn last_binding(&self, id: u32) -> Option<u32>
        ensures { (past : Past) → Summarises past self.now id → result ≡ last_binding past id }
    {
        self.held.get(&id)?.last
    }

    /// Whether a buffer was discarded, asked of calls that make none, as those of a list.
    pub fn was_discarded(&self, id: u32) -> bool
        ensures { (past : Past) → Summarises past self.now id → was_made past id ≡ false
            → result ≡ was_discarded past id }
    {
        match self.held.get(&id) {
            Some(held) => held.discarded,
            None => false,
        }
    }

    // Nothing is kept of a buffer, as if no call touched it.
    fn forget(&mut self, id: u32)
        ensures { self.new ≡ ids.remove self.old id }
    {
        self.held.remove(&id);
    }

    // A call discards a buffer that no call touched before.
    fn discarded_first(&mut self, id: u32) -> Result<(), AllocError>
        requires { ids.get self.old id ≡ None }
        ensures discarded { OnOk result (self.new ≡ ids.insert self.old id (record untouched { discarded = true; bound = [] })) }
        ensures unchanged { OnErr result (self.new ≡ self.old) }
    {
        let mut held = Held::new(self.alloc);
        held.discard();
        self.held.insert(id, held)?;
        Ok(())
    }

    // A call binds a range of a buffer that no call touched before.
    fn bound_first(&mut self, call: u32, range: &ResRange) -> Result<(), AllocError>
        requires { ids.get self.old range.now.res ≡ None }
        ensures bound { OnOk result (BindsAt self.old call range.now self.new) }
        ensures unchanged { OnErr result (self.new ≡ self.old) }
    {
        let mut held = Held::new(self.alloc);
        held.bind(call, range.from, range.to)?;
        self.held.insert(range.res, held)?;
        Ok(())
    }
}
