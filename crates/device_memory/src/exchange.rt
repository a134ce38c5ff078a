// A block's bytes, moved out of it and back without a copy.

ghost use Rattle.std.specs.Prelude.{◌≡◌, []};
ghost use Rattle.device_memory.specs.Held.{block_of};
ghost use Rattle.device_memory.specs.Writes.{bytes_if, exchanged};

use crate::DeviceMemory;
use dx_types::BlockNo;

impl DeviceMemory {
    /// The bytes of a block, which has none until they are back.
    pub(crate) fn take_bytes(&mut self, number: BlockNo) -> Vec<u8>
        ensures bytes { result.items ≡ bytes_if (block_of self.old number) }
        ensures rest { self.new ≡ exchanged number [] self.old }
    {
        match self.blocks.get_mut(&number) {
            Some(block) => block.take_bytes(),
            None => Vec::new(self.alloc),
        }
    }

    /// Bytes in place of those that a block has.
    pub(crate) fn put_bytes(&mut self, number: BlockNo, bytes: Vec<u8>)
        ensures { self.new ≡ exchanged number bytes.items self.old }
    {
        match self.blocks.get_mut(&number) {
            Some(block) => block.put_bytes(bytes),
            None => drop(bytes),
        }
    }
}
