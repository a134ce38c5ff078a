ghost use Rattle.std.specs.Prelude.{◌≡◌, ◌≤◌, ◌++◌, ◌∷◌, [], IfOk, OnOk, OnErr, None, position};
ghost use Rattle.staging_pages.specs.Pages.{TakesPage, is_long_enough};
ghost use Rattle.dx_types.specs.declared.limits.TheConstants.{MAX_BUFFER_SIZE};

use crate::page::Page;
use buffer_blocks::Block;
use dx_types::BlockNo;
use dx_types::limits::PAGE_BYTES;
use std::alloc::{AllocError, Global};
use std::marker::Model;

/// The pages that came back, in that order.
#[derive(Drop)]
pub struct Pages {
    alloc: Global,
    kept: Vec<Block>,
}

impl Model for Pages {
    ghost use Rattle.std.specs.Prelude.{List};
    ghost use Rattle.buffer_blocks.specs.declared.block.Block.{Block};
    ghost use Rattle.staging_pages.specs.PageState.{pages_code};

    ghost Value = { List Block };

    ghost coded = { pages_code };

    ghost view = { λ p. p.kept.items };
}

impl Pages {
    /// No page has come back yet.
    pub fn new(alloc: Global) -> Pages
        ensures { result ≡ [] }
    {
        Pages {
            alloc,
            kept: Vec::new(alloc),
        }
    }

    /// The first page that came back and has at least `len` bytes, with its own number and nothing used. Where
    /// there is none, a new page of this number, of `len` bytes or of 1,048,576 if `len` is less. A lack of
    /// memory changes nothing.
    pub fn next(&mut self, number: BlockNo, len: u64) -> Result<Page, AllocError>
        requires { len ≤ MAX_BUFFER_SIZE }
        ensures ok { IfOk result (λ page. TakesPage self.old number len page self.new) }
        ensures err { OnErr result (self.new ≡ self.old) }
        ensures memory { OnErr result (position (is_long_enough len) self.old ≡ None) }
    {
        let Some(i) = first_long_enough(&self.kept, len) else {
            let block = Block::new(self.alloc, number, len.max(PAGE_BYTES))?;
            return Ok(Page::new(block));
        };
        Ok(Page::new(self.kept.remove(i)))
    }

    /// Takes a page back, behind all others. A lack of memory changes nothing, and the page is gone.
    pub fn give(&mut self, page: Block) -> Result<(), AllocError>
        ensures ok { OnOk result (self.new ≡ self.old ++ page ∷ []) }
        ensures err { OnErr result (self.new ≡ self.old) }
    {
        self.kept.push(page)?;
        Ok(())
    }
}

fn first_long_enough(pages: &[Block], len: u64) -> Option<usize>
    ensures { result ≡ position (is_long_enough len) pages.now }
{
    pages.iter().position(|page| page.len() >= len)
}
