// A shader, and the token bytes that tell it from others.

ghost use Rattle.std.specs.Prelude.{◌≡◌, ◌↔◌, Some, IfOk, IsTrue};
ghost use Rattle.std.specs.Arc.{arc_value};
ghost use Rattle.shader_model.specs.Shader.{program_of};
ghost use Rattle.d3d_state.specs.Shaders.{program_by};

use d3d_state::LiveShader;
use shader_model::Shader;
use std::alloc::{AllocError, Global};
use std::sync::Arc;

/// A shader with its token bytes.
#[derive(Drop)]
pub(crate) struct Source {
    words: Vec<u8>,
    shader: LiveShader,
    ghost spelled: { shader.words ≡ words.items },
}

impl Source {
    /// The shader of these token bytes.
    pub(crate) fn share(
        alloc: Global,
        words: &[u8],
        shader: &LiveShader,
    ) -> Result<Arc<Source, Global>, AllocError>
        requires { shader.now.words ≡ words.now }
        ensures shader { IfOk result (λ s. (arc_value s).shader ≡ shader.now) }
        ensures words { IfOk result (λ s. (arc_value s).words.items ≡ words.now) }
    {
        let words = Vec::from_slice(alloc, words)?;
        let shader = shader.share()?;
        let source = Arc::new(alloc, Source { words, shader })?;
        Ok(source)
    }

    /// Its tree.
    pub(crate) fn tree(&self) -> &Shader
        ensures { program_by self.now.words.items ≡ Some (program_of result.now) }
    {
        self.shader.tree()
    }

    /// Whether the token bytes are the same.
    pub(crate) fn spells(&self, other: &Source) -> bool
        ensures { IsTrue result ↔ (self.now.words.items ≡ other.now.words.items) }
    {
        self.words.as_slice() == other.words.as_slice()
    }
}
