// From a shader to its module.

ghost use Rattle.std.specs.Prelude.{◌≡◌, ℕ, true, List, Some, IfOk};
ghost use Rattle.shader_model.specs.declared.ids.Ids.{Ids};
ghost use Rattle.shader_model.specs.Shader.{program_of};
ghost use Rattle.shader_model.specs.Invocation.{Slots, invoked};
ghost use Rattle.shader_model.specs.Dispatch.{is_allowed, dispatched};
ghost use Rattle.spirv_model.specs.Words.{words_of};
ghost use Rattle.spirv_model.specs.Meaning.Bindings.{SlotsFit};
ghost use Rattle.spirv_model.specs.Meaning.ModuleMeaning.{module_meaning};
ghost use Rattle.spirv_model.specs.Meaning.ModuleDispatch.{InRange, IsDefined, group_of, module_dispatched};
ghost use Rattle.spirv_emit.specs.Module.{module_bound, module_of, module_ops};

use crate::code::Code;
use crate::module::emit_code;
use shader_model::Shader;
use spirv_words::{Module, ModuleEnd};
use std::alloc::{AllocError, Global};

/// The module of a shader's code, which the profile takes.
fn finish(shader: &Shader, code: Code) -> Result<Module, AllocError>
    requires words { code.words ≡ words_of (module_ops (program_of shader.now)) }
    requires bound { code.next ≡ module_bound (program_of shader.now) }
    ensures { IfOk result (λ made. made ≡ module_of (program_of shader.now)) }
{
    let _body = shader.body();
    let Code { words, next } = code;
    match words.finish(next) {
        Ok(module) => Ok(module),
        Err(ModuleEnd::NoMemory) => Err(AllocError),
        Err(ModuleEnd::Bad(_)) => unreachable!(),
    }
}

fn emitted(alloc: Global, shader: &Shader) -> Result<Module, AllocError>
    ensures { IfOk result (λ made. made ≡ module_of (program_of shader.now)) }
{
    let code = emit_code(alloc, shader)?;
    finish(shader, code)
}

/// The module of a shader, which does what the shader does: a compute shader of SPIR-V 1.6 with the shader's group, one
/// entry point `main`, the buffers of the slots as storage buffers at bindings 0 to 37 of set 0 (constant buffers,
/// resources, unordered access views), and their lengths in words as push constants. Each invocation of it has an
/// outcome. It takes time and memory in proportion to the tree.
pub fn emit(alloc: Global, shader: &Shader) -> Result<Module, AllocError>
    ensures words { IfOk result (λ made. made ≡ module_of (program_of shader.now)) }
    ensures group { IfOk result (λ made. group_of made ≡ shader.now.group) }
    ensures defined { IfOk result IsDefined }
    ensures means { IfOk result (λ made. (ids : Ids) (slots : Slots) → InRange shader.now.group ids → SlotsFit slots
        → module_meaning made ids slots ≡ Some (invoked (program_of shader.now) ids slots)) }
    ensures dispatches { IfOk result (λ made. (groups : List ℕ) (slots : Slots) → is_allowed groups shader.now.group ≡ true → SlotsFit slots
        → module_dispatched made groups slots ≡ Some (dispatched (program_of shader.now) groups slots)) }
{
    let _body = shader.body();
    emitted(alloc, shader)
}
