ghost use Rattle.std.specs.Prelude.{◌≡◌, ◌+◌, ◌≤◌, ◌<◌, ◌++◌, ◌∷◌, [], suc, length, cond, ◌==◌, IfOk, OnOk, OnErr, IsTrue, ◌↔◌, Some, None};
ghost use Rattle.buffer_blocks.specs.Block.{bytes_of};
ghost use Rattle.staging_pages.specs.PageState.{PageState};
ghost use Rattle.cs_chunk.specs.Chunk.{pages_of, with_pages};
ghost use Rattle.immediate_ctx.specs.Staging.{Fits, Stages, NotFits, StagesOn, TurnsPage, empty_pool, put_by};
ghost use Rattle.dx_types.specs.declared.limits.TheConstants.{MAX_BUFFER_SIZE};

use buffer_blocks::Block;
use cs_chunk::Chunk;
use dx_types::{BlockNo, Range};
use staging_pages::{Page, Pages};
use std::alloc::{AllocError, Global};
use std::marker::Model;

/// The first number of a block of no class: a buffer's own, or a page.
const FIRST_OWN_NUMBER: BlockNo = 512;

/// The pages for staged bytes, and the numbers of blocks of no class. The newest page is kept here until the chunk has another.
#[derive(Drop)]
pub struct Staging {
    pages: Pages,
    newest: Option<Page>,
    next: BlockNo,
}

impl Model for Staging {
    ghost use Rattle.immediate_ctx.specs.Staging.{Pool};

    ghost Value = { Pool };

    ghost view = { λ s. record { spare = s.pages; newest = s.newest; next = s.next } };
}

impl Staging {
    /// No page, and no number was given.
    pub fn new(alloc: Global) -> Staging
        ensures { result ≡ empty_pool }
    {
        Staging {
            pages: Pages::new(alloc),
            newest: None,
            next: FIRST_OWN_NUMBER,
        }
    }

    /// The next number of a block of no class. Nothing changes where there is none.
    pub fn number(&mut self) -> Result<BlockNo, AllocError>
        ensures ok { IfOk result (λ n. (n ≡ self.old.next) × (self.new ≡ record self.old { next = suc self.old.next })) }
        ensures err { OnErr result (self.new ≡ self.old) }
    {
        let number = self.next;
        self.next = number_after(number)?;
        Ok(number)
    }

    /// Stages bytes, and gives the range where they stand: behind those of the newest page where they fit, else from the front of the
    /// first page that came back and is long enough, else of a new one.
    pub fn stage(&mut self, chunk: &mut Chunk, bytes: &[u8]) -> Result<Range, AllocError>
        requires { length bytes.now ≤ MAX_BUFFER_SIZE }
        ensures pages { IfOk result (λ r. Stages bytes.now self.old (pages_of chunk.old) r self.new (pages_of chunk.new)) }
        ensures chunk { chunk.new ≡ with_pages chunk.old (pages_of chunk.new) }
    {
        if !self.has_room(bytes.len() as u64) {
            self.turn_page(chunk, bytes.len() as u64)?;
        }
        Ok(self.write(bytes))
    }

    /// The chunk is handed over, with its newest page behind its others.
    pub fn close(&mut self, chunk: &mut Chunk) -> Result<(), AllocError>
        ensures pool { OnOk result (self.new ≡ record self.old { newest = None }) }
        ensures chunk { OnOk result (chunk.new ≡ with_pages chunk.old (put_by (pages_of chunk.old) self.old.newest)) }
        ensures err { OnErr result (chunk.new ≡ chunk.old) }
    {
        if let Some(page) = self.newest.take() {
            chunk.put_page(page)?;
        }
        Ok(())
    }

    /// A page comes back, behind the others. A lack of memory changes nothing, and the page is gone.
    pub fn give(&mut self, page: Block) -> Result<(), AllocError>
        ensures ok { OnOk result (self.new ≡ record self.old { spare = self.old.spare ++ page ∷ [] }) }
        ensures err { OnErr result (self.new ≡ self.old) }
    {
        self.pages.give(page)
    }

    /// Pages come back, behind the others.
    pub fn give_all(&mut self, pages: Vec<Block>) -> Result<(), AllocError>
        ensures { OnOk result (self.new ≡ record self.old { spare = self.old.spare ++ pages.items }) }
    {
        'each: for page in pages {
            self.give(page)?;
        }
        Ok(())
    }

    // Whether so many bytes fit on the newest page.
    fn has_room(&self, len: u64) -> bool
        ensures yes { IsTrue result → (page : PageState) × (self.now.newest ≡ Some page) × Fits len page }
        ensures no { (IsTrue result → ⊥) → NotFits len self.now.newest }
    {
        match &self.newest {
            Some(page) => page.left() >= len,
            None => false,
        }
    }

    // The next page is the newest, and the one before stands with the chunk's others.
    fn turn_page(&mut self, chunk: &mut Chunk, len: u64) -> Result<(), AllocError>
        requires { len ≤ MAX_BUFFER_SIZE }
        ensures turned { OnOk result ((page : PageState) × TurnsPage len self.old (pages_of chunk.old) page self.new (pages_of chunk.new) × Fits len page) }
        ensures chunk { chunk.new ≡ with_pages chunk.old (pages_of chunk.new) }
    {
        self.close(chunk)?;
        let page = self.pages.next(self.next, len)?;
        self.next = next_number(self.next, page.number())?;
        self.newest = Some(page);
        Ok(())
    }

    // Writes bytes behind those of the newest page, where they fit.
    fn write(&mut self, bytes: &[u8]) -> Range
        requires { (page : PageState) × (self.old.newest ≡ Some page) × Fits (length bytes.now) page }
        ensures { (page : PageState) × StagesOn bytes.now self.old page result self.new }
    {
        let Some(mut page) = self.newest.take() else {
            unreachable!()
        };
        let from = page.used();
        let len = bytes.len() as u64;
        page.take(len).copy_from_slice(bytes);
        let block = page.number();
        self.newest = Some(page);
        Range {
            block,
            from,
            to: from + len,
        }
    }
}

// The next number, once a page with this number is used: that page is new where it has the next number.
fn next_number(next: BlockNo, used: BlockNo) -> Result<BlockNo, AllocError>
    ensures { IfOk result (λ n. n ≡ cond (used == next) (suc next) next) }
{
    if used == next {
        return number_after(next);
    }
    Ok(next)
}

// The number after this one; a want of memory where there is none.
fn number_after(number: BlockNo) -> Result<BlockNo, AllocError>
    ensures { IfOk result (λ n. n ≡ suc number) }
{
    match number.checked_add(1) {
        Some(next) => Ok(next),
        None => Err(AllocError),
    }
}
