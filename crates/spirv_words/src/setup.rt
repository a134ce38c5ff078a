// The operands of what sets a module up, and of decorations.

ghost use Rattle.std.specs.Prelude.{◌≡◌, ◌+◌, ◌<◌, ◌^◌, length};
ghost use Rattle.spirv_model.specs.Op as ops;
ghost use Rattle.spirv_words.specs.Rules.{operand_fault};

use crate::decoration::is_decoration;
use crate::each::Each;
use crate::known::Known;
use crate::verdict::{first_wrong, shape};
use spirv_model::ModuleFault;
use spirv_model::decorations::OFFSET;
use spirv_model::settings::{
    GL_COMPUTE, GLSL_450, LOCAL_SIZE, LOGICAL, NAME_END, NAME_MAIN, SHADER,
};

#[tactic(auto, unfolding(crate::specs::Rules::operand_fault, crate::specs::Rules::rule_of))]
impl Known<'_> {
    pub fn capability_fault(&self, at: u32, capability: u32) -> Option<ModuleFault>
        requires { at + 1 < 2 ^ 32 }
        ensures { result ≡ operand_fault self.now at (ops.Capability capability) }
    {
        first_wrong(at, &[shape(capability == SHADER)])
    }

    pub fn memory_model_fault(&self, at: u32, addressing: u32, model: u32) -> Option<ModuleFault>
        requires { at + 2 < 2 ^ 32 }
        ensures { result ≡ operand_fault self.now at (ops.MemoryModel addressing model) }
    {
        first_wrong(
            at,
            &[shape(addressing == LOGICAL), shape(model == GLSL_450)],
        )
    }

    pub fn entry_point_fault(
        &self,
        at: u32,
        model: u32,
        function: u32,
        name: u32,
        name_end: u32,
        interface: &[u32],
    ) -> Option<ModuleFault>
        requires { at + 4 + length interface.now < 2 ^ 32 }
        ensures { result ≡ operand_fault self.now at (ops.EntryPoint model function name name_end interface.now) }
    {
        let head = [
            shape(model == GL_COMPUTE),
            self.later(function),
            shape(name == NAME_MAIN),
            shape(name_end == NAME_END),
        ];
        self.listed(at, &head, Each::Later, interface)
    }

    pub fn execution_mode_fault(
        &self,
        at: u32,
        function: u32,
        mode: u32,
        x: u32,
        y: u32,
        z: u32,
    ) -> Option<ModuleFault>
        requires { at + 5 < 2 ^ 32 }
        ensures { result ≡ operand_fault self.now at (ops.ExecutionMode function mode x y z) }
    {
        let head = [
            self.entry_named(function),
            shape(mode == LOCAL_SIZE),
            None,
            None,
            None,
        ];
        first_wrong(at, &head)
    }

    pub fn decorate_fault(
        &self,
        at: u32,
        target: u32,
        decoration: u32,
        values: &[u32],
    ) -> Option<ModuleFault>
        requires { at + 2 + length values.now < 2 ^ 32 }
        ensures { result ≡ operand_fault self.now at (ops.Decorate target decoration values.now) }
    {
        let head = [self.later(target), shape(is_decoration(decoration))];
        self.listed(at, &head, Each::DecorationValue(decoration), values)
    }

    pub fn member_decorate_fault(
        &self,
        at: u32,
        target: u32,
        member: u32,
        decoration: u32,
        values: &[u32],
    ) -> Option<ModuleFault>
        requires { at + 3 + length values.now < 2 ^ 32 }
        ensures { result ≡ operand_fault self.now at (ops.MemberDecorate target member decoration values.now) }
    {
        let head = [self.later(target), None, shape(decoration == OFFSET)];
        self.listed(at, &head, Each::Offset(member), values)
    }
}
