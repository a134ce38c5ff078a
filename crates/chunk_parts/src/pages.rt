ghost use Rattle.std.specs.Prelude.{◌≡◌, [], map, IfOk, OnOk};
ghost use Rattle.cs_chunk.specs.Chunk.{pages_of, with_pages};
ghost use Rattle.staging_pages.specs.PageState.{PageState};

use buffer_blocks::Block;
use cs_chunk::Chunk;
use std::alloc::{AllocError, Global};

/// Takes the pages out of a chunk, in the order in which they were put, each as its block.
pub fn take_pages(alloc: Global, chunk: &mut Chunk) -> Result<Vec<Block>, AllocError>
    ensures pages { IfOk result (λ pages. pages.items ≡ map (λ (p : PageState). p.block) (pages_of chunk.old)) }
    ensures rest { OnOk result (chunk.new ≡ with_pages chunk.old []) }
{
    let mut pages = Vec::new(alloc);
    'pages: while let Some(page) = chunk.take_page() {
        pages.push(page.into_block())?;
    }
    Ok(pages)
}
