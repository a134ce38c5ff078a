// What modules of shaders do.

ghost use Rattle.std.specs.Prelude.{◌≡◌, ℕ, List, Some};
ghost use Rattle.shader_model.specs.Shader.{Program};
ghost use Rattle.d3d_state.specs.Shaders.{program_by};
ghost use Rattle.pipe_cache.specs.Modules.{DoesAs, module_for};

/// The module that is emitted for token bytes does what the shader does that they spell: its groups have that shader's
/// size, each of its invocations has an outcome, and so has each dispatch that is not too large, which is the shader's.
/// Where there is a module there is such a shader.
pub fn modules_do_as_shaders()
    ensures shader { (tokens made : List ℕ) → module_for tokens ≡ Some made
        → ((p : Program) × (program_by tokens ≡ Some p)) }
    ensures does { (tokens made : List ℕ) (p : Program) → module_for tokens ≡ Some made → program_by tokens ≡ Some p
        → DoesAs p made }
{}
