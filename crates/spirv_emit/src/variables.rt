// The variables of the function, by their numbers.

ghost use Rattle.std.specs.Prelude.{◌≡◌, ◌<◌, ◌^◌};
ghost use Rattle.spirv_emit.specs.Lower as lower;

/// The turns that are left.
pub const TURNS: u32 = 0;

/// A component of a source that is fetched from a constant buffer.
pub fn fetched(source: u32, component: u32) -> u32
    requires source { source < 4 }
    requires component { component < 4 }
    ensures { result ≡ lower.fetched source component }
{
    1 + 4 * source + component
}

/// A component of what is computed for a destination.
pub fn result(destination: u32, component: u32) -> u32
    requires destination { destination < 2 }
    requires component { component < 4 }
    ensures { result ≡ lower.result destination component }
{
    17 + 4 * destination + component
}

/// A component of a temporary.
pub fn temporary(index: u32, component: u32) -> u32
    requires index { index < 2 ^ 16 }
    requires component { component < 4 }
    ensures { result ≡ lower.temporary index component }
{
    25 + 4 * index + component
}
