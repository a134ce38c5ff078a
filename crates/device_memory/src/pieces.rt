// Pieces of bytes that are written into a block.

ghost use Rattle.std.specs.Prelude.{◌≡◌, ◌+◌, ◌-◌, ◌/◌, ◌%◌, ◌<◌, ◌≤◌, length};
ghost use Rattle.buffer_blocks.specs.Block.{bytes_of};
ghost use Rattle.vk_types.specs.Memory.{byte_in, number_at};
ghost use Rattle.device_memory.specs.Writes.{IsPut, IsPutIn};

use buffer_blocks::Block;

/// A piece over the bytes from a place on.
pub(crate) fn put_piece(bytes: &mut [u8], from: usize, to: usize, piece: &[u8])
    requires order { from ≤ to }
    requires within { to ≤ length bytes.old }
    requires size { length piece.now ≡ to - from }
    ensures { IsPut from to (number_at piece.now) bytes.old bytes.new }
{
    bytes[from..to].copy_from_slice(piece);
}

/// Byte `k` of a word, the lowest first.
fn byte_in(word: u32, k: usize) -> u8
    requires { k < 4 }
    ensures { result ≡ byte_in word k }
{
    word.to_le_bytes()[k]
}

/// The words over the bytes from one place to another, `unit` of them in turn.
fn put_words(bytes: &mut [u8], from: usize, to: usize, words: &[u32; 4], unit: usize)
    requires order { from ≤ to }
    requires within { to ≤ length bytes.old }
    requires some { 1 ≤ unit }
    requires four { unit ≤ 4 }
    ensures { IsPut from to (λ k. byte_in (number_at words.now (k / 4 % unit)) (k % 4)) bytes.old bytes.new }
{
    'bytes: for at in from..to {
        let k = at - from;
        bytes[at] = byte_in(words[k / 4 % unit], k % 4);
    }
}

/// A part of the bytes over those from another place on, all read before the write.
fn put_own(bytes: &mut [u8], from: usize, to: usize, source: usize)
    requires order { from ≤ to }
    requires target { to ≤ length bytes.old }
    requires source { source + (to - from) ≤ length bytes.old }
    ensures { IsPut from to (λ k. number_at bytes.old (source + k)) bytes.old bytes.new }
{
    bytes.copy_within(source..source + (to - from), from);
}

/// Writes bytes into a block, from byte `from` to just before byte `to`.
pub(crate) fn write_block(block: &mut Block, from: u64, to: u64, piece: &[u8])
    requires order { from ≤ to }
    requires within { to ≤ length (bytes_of block.old) }
    requires size { length piece.now ≡ to - from }
    ensures { IsPutIn from to (number_at piece.now) block.old block.new }
{
    let len = block.len();
    put_piece(block.part_mut(0, len), from as usize, to as usize, piece);
}

/// Writes words into a block, `unit` of them in turn.
pub(crate) fn clear_block(block: &mut Block, from: u64, to: u64, words: &[u32; 4], unit: u32)
    requires order { from ≤ to }
    requires within { to ≤ length (bytes_of block.old) }
    requires some { 1 ≤ unit }
    requires four { unit ≤ 4 }
    ensures { IsPutIn from to (λ k. byte_in (number_at words.now (k / 4 % unit)) (k % 4)) block.old block.new }
{
    let len = block.len();
    put_words(
        block.part_mut(0, len),
        from as usize,
        to as usize,
        words,
        unit as usize,
    );
}

/// Moves bytes within a block: those from byte `source` on, as many as there are from `from` to just before `to`.
pub(crate) fn move_in_block(block: &mut Block, from: u64, to: u64, source: u64)
    requires order { from ≤ to }
    requires target { to ≤ length (bytes_of block.old) }
    requires source { source + (to - from) ≤ length (bytes_of block.old) }
    ensures { IsPutIn from to (λ k. number_at (bytes_of block.old) (source + k)) block.old block.new }
{
    let len = block.len();
    put_own(
        block.part_mut(0, len),
        from as usize,
        to as usize,
        source as usize,
    );
}
