use buffer_blocks::Block;
use dx_types::{BlockNo, CallNo, Range};

/// What one call, or one call of a command list, asks of the command stream.
#[derive(Drop)]
pub struct Entry {
    /// The call that is played.
    pub call: CallNo,
    /// The call whose body this entry has: of a list's call the recorded one, else `call` itself.
    pub item: CallNo,
    /// The block that the call takes.
    pub block: Option<Block>,
    /// The number of the block that the call retires.
    pub mark: Option<BlockNo>,
    /// Where the bytes of the call are staged.
    pub staged: Option<Range>,
}
