// How decoding ends where it gives no shader.

use shader_model::{ShaderFault, ShaderKind};
use std::alloc::AllocError;

/// The first bad word of a shader, or want of memory.
#[derive(Clone, Copy, PartialEq, Eq, Debug)]
pub enum ShaderEnd {
    Bad(ShaderFault),
    NoMemory,
}

impl From<AllocError> for ShaderEnd {
    ghost use Rattle.shader_tokens.specs.declared.end.ShaderEnd.TheVariants.{NoMemory};
    ghost use Rattle.std.specs.Prelude.{◌≡◌};

    ghost from_gives = { λ _ e. e ≡ NoMemory };

    fn from(_: AllocError) -> ShaderEnd {
        ShaderEnd::NoMemory
    }
}
