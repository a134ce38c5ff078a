ghost use Rattle.std.specs.Prelude.{◌≡◌, suc, List, length};
ghost use Rattle.vk_types.specs.declared.message.Completion.{Completion};
ghost use Rattle.vk_types.specs.declared.message.Post.{Post};
ghost use Rattle.core_model.specs.Succession.{Head, Log, HasHomes, CompletionBy, PostBy};
ghost use Rattle.submit_finish.specs.Posts.{post_of};

use buffer_blocks::Block;
use vk_types::{Completion, Post};

/// What a completion comes apart into: the post for the recorder, and the blocks of a class that go home, in the order of the
/// batch's marks.
#[derive(Drop)]
pub struct Finished {
    pub post: Post,
    pub homes: Vec<Block>,
}

/// Finishes completions (after a signalled fence). It keeps nothing from one to the next.
#[derive(Clone, Copy, Debug, PartialEq, Eq)]
pub struct FinishPart;

impl FinishPart {
    pub fn new() -> FinishPart {
        FinishPart
    }

    /// The completion's post, and its blocks that go home. All is moved, and takes no memory.
    pub fn step(&mut self, c: Completion) -> Finished
        ensures post { result.post ≡ post_of c }
        ensures homes { result.homes.items ≡ c.homes.items }

        // Where the completion may stand behind messages with these heads, so may the post, and these are the blocks that its
        // marks send home.
        ensures follows { (log : Log) (front : List Head) → CompletionBy log front c → PostBy log front result.post }
        ensures at_home { (log : Log) (front : List Head)
            → CompletionBy log front c → HasHomes (suc (length front)) result.homes.items result.post.placed.items }
    {
        let Completion {
            number,
            upto,
            placed,
            homes,
            pages,
            snaps,
            values,
            ops,
        } = c;
        Finished {
            post: Post {
                number,
                upto,
                placed,
                pages,
                snaps,
                values,
                ops,
            },
            homes,
        }
    }
}
