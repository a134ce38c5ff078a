ghost use Rattle.std.specs.Prelude.{◌≡◌, [], true, None, OnErr, OnOk};
ghost use Rattle.d3d_uses.specs.Summary.{BindsMore, untouched};

use crate::Ranges;
use std::alloc::{AllocError, Global};

/// What is kept of a buffer: the last call that binds some of it, whether it was discarded, and what is bound since.
#[derive(Drop)]
pub(crate) struct Held {
    pub(crate) last: Option<u32>,
    pub(crate) discarded: bool,
    pub(crate) bound: Ranges,
}

impl Held {
    /// No call touches the buffer.
    pub(crate) fn new(alloc: Global) -> Held
        ensures { result ≡ untouched }
    {
        Held {
            last: None,
            discarded: false,
            bound: Ranges::new(alloc),
        }
    }

    /// A call binds the bytes from `from` to just before `to`.
    pub(crate) fn bind(&mut self, call: u32, from: u64, to: u64) -> Result<(), AllocError>
        ensures bound { OnOk result (BindsMore self.old call from to self.new) }
        ensures unchanged { OnErr result (self.new ≡ self.old) }
    {
        self.bound.add(from, to)?;
        self.last = Some(call);
        Ok(())
    }

    /// A call discards the buffer: from here on no earlier byte is bound.
    pub(crate) fn discard(&mut self)
        ensures { self.new ≡ record self.old { discarded = true; bound = [] } }
    {
        self.discarded = true;
        self.bound.clear();
    }
}
