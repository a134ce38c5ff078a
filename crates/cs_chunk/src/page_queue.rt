ghost use Rattle.std.specs.Prelude.{◌≡◌, [], ◌∷◌, ◌++◌, OnOk, OnErr, MatchOption};

use staging_pages::Page;
use std::alloc::{AllocError, Global};
use std::collections::VecDeque;
use std::marker::Model;

/// The pages of a chunk, in the order in which they were put.
#[derive(Drop)]
pub struct PageQueue {
    pages: VecDeque<Page>,
}

impl Model for PageQueue {
    ghost use Rattle.std.specs.Prelude.{List};
    ghost use Rattle.staging_pages.specs.PageState.{PageState};

    ghost Value = { List PageState };

    ghost view = { λ q. q.pages.items };
}

impl PageQueue {
    pub fn new(alloc: Global) -> PageQueue
        ensures { result ≡ [] }
    {
        PageQueue {
            pages: VecDeque::new(alloc),
        }
    }

    pub fn push(&mut self, p: Page) -> Result<(), AllocError>
        ensures ok { OnOk result (self.new ≡ self.old ++ p ∷ []) }
        ensures err { OnErr result (self.new ≡ self.old) }
    {
        self.pages.push_back(p)?;
        Ok(())
    }

    pub fn pop(&mut self) -> Option<Page>
        ensures { MatchOption result ((self.old ≡ []) × (self.new ≡ [])) (λ p. self.old ≡ p ∷ self.new) }
    {
        self.pages.pop_front()
    }
}
