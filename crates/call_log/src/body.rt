ghost use Rattle.std.specs.Prelude.{◌≡◌, ◌+◌, ◌*◌, ◌≤◌, ◌<◌, length, drop};
ghost use Rattle.call_log.specs.Body.{word, fits_known, fits_layout, layout};
ghost use Rattle.call_log.specs.declared.kinds.Layout.TheVariants.{Counted};

use crate::kinds::Layout;
use crate::table::kind_numbered;
use byteorder::{ByteOrder, LittleEndian};

/// The layout of a kind's bodies; none where no call is of this kind.
pub(crate) fn layout_of(kind: u16) -> Option<Layout>
    ensures { result ≡ layout kind }
{
    Some(kind_numbered(kind)?.layout)
}

/// Whether a body's length fits a layout; it fits none that is missing.
pub(crate) fn fits_known(shape: Option<Layout>, body: &[u8]) -> bool
    ensures { result ≡ fits_known shape body.now }
{
    match shape {
        None => false,
        Some(shape) => shape_fits(shape, body),
    }
}

fn shape_fits(shape: Layout, body: &[u8]) -> bool
    ensures { result ≡ fits_layout shape body.now }
{
    match shape {
        Layout::Words(n) => body.len() == 4 * n as usize,
        Layout::Counted(n) => is_counted(n as usize, body),
        Layout::Tokens => 4 <= body.len() && body.len() % 4 == 0,
        Layout::Free => true,
    }
}

fn is_counted(n: usize, body: &[u8]) -> bool
    requires { n < 256 }
    ensures { result ≡ fits_layout (Counted n) body.now }
{
    4 * n + 4 <= body.len() && body.len() == 4 * n + 4 + word_at(body, n) as usize
}

/// Word i of a body.
pub(crate) fn word_at(body: &[u8], i: usize) -> u32
    requires { 4 * i + 4 ≤ length body.now }
    ensures { result ≡ word i body.now }
{
    LittleEndian::read_u32(&body[4 * i..])
}

/// The bytes of a body from a place on.
pub(crate) fn tail(body: &[u8], from: usize) -> &[u8]
    requires { from ≤ length body.now }
    ensures { result.now ≡ drop from body.now }
{
    &body[from..]
}
