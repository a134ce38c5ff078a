ghost use Rattle.std.specs.Prelude.{◌≡◌, IfOk, OnErr, OnOk, Some};
ghost use Rattle.std.specs.Option.{option_copied};
ghost use Rattle.shader_model.specs.Shader.{program_of};
ghost use Rattle.base_lemmas.specs.IdMap as ids;
ghost use Rattle.d3d_state.specs.Shaders.{program_by, shader_from};

use dx_types::CallNo;
use shader_model::Shader;
use shader_tokens::{ShaderEnd, decode};
use std::alloc::{AllocError, Global};
use std::collections::BTreeMap;
use std::marker::Model;
use std::sync::Arc;

/// Token bytes, and the tree that they spell. The bytes are kept because several of them may spell one tree.
#[derive(Drop)]
struct Tokens {
    words: Vec<u8>,
    tree: Shader,
}

/// A shader: the call that created it, its token bytes, and the tree that they spell. A clause sees the call and the bytes.
#[derive(Drop)]
pub struct LiveShader {
    call: CallNo,
    tokens: Arc<Tokens, Global>,
}

impl Model for LiveShader {
    ghost use Rattle.std.specs.Arc.{arc_value};
    ghost use Rattle.std.specs.Prelude.{◌≡◌, Some};
    ghost use Rattle.shader_model.specs.Shader.{program_of};
    ghost use Rattle.d3d_model.specs.D3dState as model;
    ghost use Rattle.d3d_state.specs.Shaders.{program_by, shader_code};

    ghost Value = { model.Shader };

    ghost coded = { shader_code };

    ghost view = { λ s. record { call = s.call; words = (arc_value s.tokens).words.items } };

    ghost invariant = { λ s. program_by (arc_value s.tokens).words.items ≡ Some (program_of (arc_value s.tokens).tree) };
}

impl LiveShader {
    /// The shader that a call creates of these token bytes; none where they have a bad word.
    pub fn decode(
        alloc: Global,
        call: CallNo,
        words: &[u8],
    ) -> Result<Option<LiveShader>, AllocError>
        ensures { IfOk result (λ shader. shader ≡ shader_from call words.now) }
    {
        match decode(alloc, words) {
            Ok(tree) => {
                let words = words.to_vec(alloc)?;
                let tokens = Arc::new(alloc, Tokens { words, tree })?;
                Ok(Some(LiveShader { call, tokens }))
            }
            Err(ShaderEnd::Bad(_)) => Ok(None),
            Err(ShaderEnd::NoMemory) => Err(AllocError),
        }
    }

    /// The same shader once more, with the same tokens and the same tree.
    pub fn share(&self) -> Result<LiveShader, AllocError>
        ensures { IfOk result (λ shader. shader ≡ self.now) }
    {
        let tokens = Arc::try_clone(&self.tokens)?;
        Ok(LiveShader {
            call: self.call,
            tokens,
        })
    }

    /// The call that created it.
    pub fn call(&self) -> CallNo
        ensures { result ≡ self.now.call }
    {
        self.call
    }

    /// Its tree.
    pub fn tree(&self) -> &Shader
        ensures { program_by self.now.words ≡ Some (program_of result.now) }
    {
        &self.tokens.tree
    }
}

/// The same shader once more, where there is one.
pub fn share(shader: Option<&LiveShader>) -> Result<Option<LiveShader>, AllocError>
    ensures { IfOk result (λ shared. shared ≡ option_copied shader.entry) }
{
    match shader {
        Some(shader) => {
            let shared = shader.share()?;
            Ok(Some(shared))
        }
        None => Ok(None),
    }
}

/// The live shaders by ids. A clause sees the map of them.
#[derive(Drop)]
pub struct Shaders {
    shaders: BTreeMap<u32, LiveShader>,
}

impl Model for Shaders {
    ghost use Rattle.base_lemmas.specs.CodeMap.{map_of};
    ghost use Rattle.d3d_state.specs.Shaders as codes;

    ghost Value = { codes.Shaders };

    ghost coded = { codes.shaders_code };

    ghost view = { λ s. map_of (λ x. x) s.shaders.entries };
}

impl Shaders {
    /// No shader is live.
    pub fn new(alloc: Global) -> Shaders
        ensures { result ≡ ids.empty }
    {
        Shaders {
            shaders: BTreeMap::new(alloc),
        }
    }

    /// A live shader.
    pub fn get(&self, id: u32) -> Option<&LiveShader>
        ensures { option_copied result ≡ ids.get self.now id }
    {
        self.shaders.get(&id)
    }

    /// One more shader is live. Want of memory changes nothing.
    pub fn insert(&mut self, id: u32, shader: LiveShader) -> Result<(), AllocError>
        ensures inserted { OnOk result (self.new ≡ ids.insert self.old id shader) }
        ensures unchanged { OnErr result (self.new ≡ self.old) }
    {
        self.shaders.insert(id, shader)?;
        Ok(())
    }

    /// A shader is live no more.
    pub fn remove(&mut self, id: u32)
        ensures { self.new ≡ ids.remove self.old id }
    {
        let _ = self.shaders.remove(&id);
    }
}
