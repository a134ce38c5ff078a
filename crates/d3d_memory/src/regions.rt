ghost use Rattle.std.specs.Prelude.{◌≡◌, ◌+◌, ◌*◌, ◌^◌, ◌<◌, ◌≤◌, [], length, nat_le, slice_index};
ghost use Rattle.d3d_model.specs.Regions.{filled, put, repeated, slice, word_at};

/// So many bytes from a place on, as far as there are.
pub(crate) fn within(bytes: &[u8], from: usize, len: usize) -> &[u8]
    ensures { result.now ≡ slice bytes.now from (from + len) }
{
    let rest = &bytes[from.min(bytes.len())..];
    &rest[..len.min(rest.len())]
}

fn byte_at(bytes: &[u8], i: usize) -> u8
    ensures { result ≡ slice_index bytes.now i }
{
    bytes.get(i).copied().unwrap_or(0)
}

/// The word at a place, the lowest byte first; a byte past the end counts as 0.
pub(crate) fn word_at(bytes: &[u8], at: usize) -> u32
    ensures { result ≡ word_at bytes.now at }
{
    let rest = &bytes[at.min(bytes.len())..];
    u32::from_le_bytes([
        byte_at(rest, 0),
        byte_at(rest, 1),
        byte_at(rest, 2),
        byte_at(rest, 3),
    ])
}

// Whether so many bytes fit from a place on.
fn fits(size: usize, from: usize, len: usize) -> bool
    ensures { result ≡ nat_le (from + len) size }
{
    from <= size && len <= size - from
}

/// A piece over the bytes from a place on, where it fits.
pub(crate) fn put(bytes: &mut [u8], from: usize, piece: &[u8])
    ensures { bytes.new ≡ put bytes.old from piece.now }
{
    if fits(bytes.len(), from, piece.len()) {
        bytes[from..from + piece.len()].copy_from_slice(piece);
    }
}

/// A range of the bytes over those from another place on, where it fits; all is read before the write.
pub(crate) fn put_own(bytes: &mut [u8], to: usize, from: usize, len: usize)
    ensures { bytes.new ≡ put bytes.old to (slice bytes.old from (from + len)) }
{
    let start = from.min(bytes.len());
    let len = len.min(bytes.len() - start);
    if fits(bytes.len(), to, len) {
        bytes.copy_within(start..start + len, to);
    }
}

/// An element over and over, so many times.
pub(crate) fn repeat(bytes: &mut [u8], times: usize, element: &[u8])
    requires { length bytes.old ≡ times * length element.now }
    ensures { bytes.new ≡ repeated times element.now }
{
    let size = element.len();
    'elements: for i in 0..times {
        bytes[i * size..(i + 1) * size].copy_from_slice(element);
    }
}

/// All bytes 0.
pub(crate) fn zero(bytes: &mut [u8])
    ensures { bytes.new ≡ filled (length bytes.old) [] }
{
    bytes.fill(0);
}

/// An element over and over, so many times, from a place on, where all of it fits.
pub(crate) fn put_repeated(bytes: &mut [u8], from: u128, times: u128, element: &[u8])
    requires from { from < 2 ^ 96 }
    requires times { times < 2 ^ 96 }
    requires element { length element.now ≤ 16 }
    ensures { bytes.new ≡ put bytes.old from (repeated times element.now) }
{
    let end = from + times * element.len() as u128;
    if element.is_empty() || end > bytes.len() as u128 {
        return;
    }
    let part = &mut bytes[from as usize..end as usize];
    repeat(part, times as usize, element);
}
