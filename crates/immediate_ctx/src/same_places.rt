ghost use Rattle.std.specs.Prelude.{◌≡◌, ◌<◌, ◌↔◌, length, slice_get, IsTrue};

use vk_types::Placed;

/// Whether two lists of places are the same.
pub(crate) fn same_places(a: &[Placed], b: &[Placed]) -> bool
    ensures { IsTrue result ↔ (a.now ≡ b.now) }
{
    if a.len() != b.len() {
        return false;
    }
    'places: for i in 0..a.len() {
        if !same_place(&a[i], &b[i]) {
            return false;
        }
    }
    true
}

fn same_place(a: &Placed, b: &Placed) -> bool
    ensures { IsTrue result ↔ (a.now ≡ b.now) }
{
    a.call == b.call
        && a.item == b.item
        && a.block == b.block
        && a.mark == b.mark
        && a.staged == b.staged
}
