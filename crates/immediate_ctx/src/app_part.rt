ghost use Rattle.std.specs.Prelude.{◌≡◌, Bool, true, false, IfOk, IsOk, OnOk, None};
ghost use Rattle.immediate_ctx.specs.AppState.{Ends, Hands, HandsOver, TakesPost, at_start, fenced, with_passed};
ghost use Rattle.immediate_ctx.specs.Due.{is_due_by};
ghost use Rattle.immediate_ctx.specs.Flight.{Fits, awaited};
ghost use Rattle.immediate_ctx.specs.Listing.{expand};

use crate::buffers::Buffers;
use crate::class_blocks::ClassBlocks;
use crate::copies::Copies;
use crate::flight::Flight;
use crate::listing::Listing;
use crate::open_chunk::OpenChunk;
use crate::staging::Staging;
use crate::step::AppStep;
use crate::values::Values;
use cs_chunk::Chunk;
use dx_types::{CallNo, Reply};
use std::alloc::{AllocError, Global};
use std::marker::Model;
use vk_types::{Post, VkOp};

/// The recorder: it takes the calls, hands chunks over, and learns of them by their Posts.
#[derive(Drop)]
pub struct AppPart {
    pub(crate) alloc: Global,
    pub(crate) passed: CallNo,
    pub(crate) in_list: bool,
    pub(crate) ended: bool,
    pub(crate) flight: Flight,
    pub(crate) unfenced: bool,
    pub(crate) open_chunk: Option<OpenChunk>,
    pub(crate) listing: Listing,
    pub(crate) buffers: Buffers,
    pub(crate) blocks: ClassBlocks,
    pub(crate) staging: Staging,
    pub(crate) copies: Copies,
    pub(crate) values: Values,
}

impl Model for AppPart {
    ghost use Rattle.immediate_ctx.specs.AppState.{AppState};
    ghost use Rattle.immediate_ctx.specs.OpenChunk.{filled_or_none};

    ghost Value = { AppState };

    ghost view = { λ a. record {
      passed = a.passed;
      in_list = a.in_list;
      ended = a.ended;
      flight = a.flight;
      unfenced = a.unfenced;
      open_chunk = filled_or_none a.open_chunk;
      listing = a.listing;
      buffers = a.buffers;
      blocks = a.blocks;
      pool = a.staging;
      copies = a.copies;
      values = a.values;
    } };
}

impl AppPart {
    /// No call was taken. `traced`: the listing is kept.
    pub fn new(alloc: Global, traced: bool) -> AppPart
        ensures { result ≡ at_start traced }
    {
        AppPart {
            alloc,
            passed: 0,
            in_list: false,
            ended: false,
            flight: Flight::new(alloc),
            unfenced: false,
            open_chunk: None,
            listing: Listing::new(alloc, traced),
            buffers: Buffers::new(alloc),
            blocks: ClassBlocks::new(alloc),
            staging: Staging::new(alloc),
            copies: Copies::new(alloc),
            values: Values::new(alloc),
        }
    }

    /// Takes a Post, where it is that of the first chunk on its way: it has the next number, the `placed` list that was kept of the
    /// chunk, and a copy of each staging buffer that the chunk uses and does not destroy, and that no later chunk uses. Any other
    /// Post is dropped, and nothing changes.
    pub fn take_post(&mut self, p: Post) -> Result<(), AllocError>
        ensures dropped { (Fits self.old.flight p → ⊥) → (IsOk result × (self.new ≡ self.old)) }
        ensures taken { Fits self.old.flight p → OnOk result (TakesPost p self.old self.new) }
    {
        if !self.flight.fits(&p) {
            return Ok(());
        }
        self.learn(p)
    }

    /// Puts a fence of the newest Post into the listing, where a Post was taken since the last one. It is called once after the
    /// Posts of a turn were taken.
    pub fn fence(&mut self) -> Result<(), AllocError>
        ensures { OnOk result (self.new ≡ fenced self.old) }
    {
        if self.unfenced {
            self.listing.push(VkOp::Fence(self.flight.taken()))?;
            self.unfenced = false;
        }
        Ok(())
    }

    /// The greatest call that is finished, as the Posts taken show; 0 before the first.
    pub fn done(&self) -> CallNo
        ensures { result ≡ self.now.flight.done }
    {
        self.flight.done()
    }

    /// Whether the open chunk is due. `stops`: an accepted readback, question or flush comes next, or nothing.
    pub fn is_due(&self, stops: bool) -> bool
        ensures { result ≡ is_due_by self.now.open_chunk.counts self.now.in_list stops }
    {
        match &self.open_chunk {
            Some(chunk) => chunk.is_due(self.in_list, stops),
            None => false,
        }
    }

    /// Hands the open chunk over, which is due. Where 32 are on their way and the first of them isn't finished, nothing changes.
    pub fn hand(&mut self) -> AppStep
        requires due { (stops : Bool) × (is_due_by self.old.open_chunk.counts self.old.in_list stops ≡ true) }
        ensures { Hands self.old result self.new }
    {
        if let Some(used) = self.flight.awaited() {
            return AppStep::Waits { used };
        }
        match self.hand_over() {
            Ok(chunk) => AppStep::Hand(chunk),
            Err(_) => AppStep::NoMemory,
        }
    }

    /// The end, behind the last of so many calls. It waits until the chunk that was handed over last is finished; nothing changes then.
    pub fn end(&mut self, calls: CallNo) -> AppStep
        ensures { Ends calls self.old result self.new }
    {
        let used = self.flight.last();
        if self.flight.done() < used {
            return AppStep::Waits { used };
        }
        self.ended = true;
        AppStep::Ended(Reply::Finished { calls })
    }

    /// A part of this call was taken; `ends` says whether it was its last one, else a list is running.
    pub fn pass(&mut self, call: CallNo, ends: bool)
        ensures { self.new ≡ with_passed call ends self.old }
    {
        self.passed = if ends { call } else { call.saturating_sub(1) };
        self.in_list = !ends;
    }

    /// The listing's operations: the recorder's own, and those of each batch where its chunk was handed over. The part has ended and
    /// was traced.
    pub fn into_ops(self) -> Result<Vec<VkOp>, AllocError>
        ensures { IfOk result (λ ops. ops.items ≡ expand self.listing.batches self.listing.own) }
    {
        self.listing.into_ops()
    }

    fn hand_over(&mut self) -> Result<Chunk, AllocError>
        requires due { (stops : Bool) × (is_due_by self.old.open_chunk.counts self.old.in_list stops ≡ true) }
        ensures { IfOk result (λ chunk. HandsOver self.old chunk self.new) }
    {
        let Some(filled) = self.open_chunk.take() else {
            unreachable!()
        };
        let number = self.flight.next()?;
        let (chunk, sent) = filled.close(&mut self.staging, number, self.passed)?;
        self.flight.hand(sent)?;
        self.listing.hand()?;
        Ok(chunk)
    }

    // Takes the Post that fits.
    fn learn(&mut self, p: Post) -> Result<(), AllocError>
        requires { Fits self.old.flight p }
        ensures { OnOk result (TakesPost p self.old self.new) }
    {
        let Post {
            number,
            upto: _,
            placed: _,
            pages,
            snaps,
            values,
            ops,
        } = p;
        self.flight.take(number);
        self.listing.bring(ops)?;
        self.staging.give_all(pages)?;
        self.copies.bring(snaps)?;
        self.values.bring(&values)?;
        self.unfenced = true;
        Ok(())
    }
}
