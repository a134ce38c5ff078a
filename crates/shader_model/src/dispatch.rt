// How large a dispatch is, and may be.

ghost use Rattle.std.specs.Prelude.{◌≡◌, ◌*◌, ◌<◌, ◌^◌, nat_le};
ghost use Rattle.shader_model.specs.Dispatch.{volume, allows, is_allowed};

use dx_types::limits::{MAX_GROUPS, MAX_INVOCATIONS};

fn product(x: u32, y: u32, z: u32) -> u128
    ensures value { result ≡ x * y * z }
    ensures limit { result < 2 ^ 96 }
{
    u128::from(x) * u128::from(y) * u128::from(z)
}

/// How many places there are below sizes.
pub fn volume(sizes: [u32; 3]) -> u128
    ensures value { result ≡ volume sizes }
    ensures limit { result < 2 ^ 96 }
{
    product(sizes[0], sizes[1], sizes[2])
}

/// Whether so many groups of so many threads each are few enough. No group at all is.
fn are_few(count: u128, threads: u128) -> bool
    requires { count < 2 ^ 96 }
    ensures { result ≡ nat_le (count * threads) MAX_INVOCATIONS }
{
    if count == 0 {
        return true;
    }
    if threads > u128::from(MAX_INVOCATIONS) {
        return false;
    }
    count * threads <= u128::from(MAX_INVOCATIONS)
}

/// Whether a dispatch may have so many groups of so many threads each.
pub fn allows(groups: [u32; 3], threads: u128) -> bool
    ensures { result ≡ allows groups threads }
{
    if groups[0] > MAX_GROUPS || groups[1] > MAX_GROUPS || groups[2] > MAX_GROUPS {
        return false;
    }
    are_few(volume(groups), threads)
}

/// Whether a dispatch may have so many groups of a size.
pub fn is_allowed(groups: [u32; 3], size: [u32; 3]) -> bool
    ensures { result ≡ is_allowed groups size }
{
    allows(groups, volume(size))
}
