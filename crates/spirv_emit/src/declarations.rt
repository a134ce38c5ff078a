// The instructions before the function's code, one by one.

ghost use Rattle.std.specs.Prelude.{◌∷◌, [], slice_index, OnOk};
ghost use Rattle.spirv_model.specs.Op as op;
ghost use Rattle.spirv_emit.specs.Emits.{Puts};

use crate::code::Code;
use spirv_model::opcodes;
use std::alloc::AllocError;

impl Code {
    pub fn capability(&mut self, capability: u32) -> Result<(), AllocError>
        ensures { OnOk result (Puts self.old self.new (op.Capability capability ∷ [])) }
    {
        self.put(opcodes::CAPABILITY, &[capability])
    }

    pub fn memory_model(&mut self, addressing: u32, model: u32) -> Result<(), AllocError>
        ensures { OnOk result (Puts self.old self.new (op.MemoryModel addressing model ∷ [])) }
    {
        self.put(opcodes::MEMORY_MODEL, &[addressing, model])
    }

    pub fn execution_mode(
        &mut self,
        function: u32,
        mode: u32,
        size: [u32; 3],
    ) -> Result<(), AllocError>
        ensures { OnOk result (Puts self.old self.new (op.ExecutionMode function mode (slice_index size 0) (slice_index size 1) (slice_index size 2) ∷ [])) }
    {
        self.put(
            opcodes::EXECUTION_MODE,
            &[function, mode, size[0], size[1], size[2]],
        )
    }

    /// A decoration without a value.
    pub fn decorate(&mut self, target: u32, decoration: u32) -> Result<(), AllocError>
        ensures { OnOk result (Puts self.old self.new (op.Decorate target decoration [] ∷ [])) }
    {
        self.put(opcodes::DECORATE, &[target, decoration])
    }

    pub fn decorate_by(
        &mut self,
        target: u32,
        decoration: u32,
        value: u32,
    ) -> Result<(), AllocError>
        ensures { OnOk result (Puts self.old self.new (op.Decorate target decoration (value ∷ []) ∷ [])) }
    {
        self.put(opcodes::DECORATE, &[target, decoration, value])
    }

    pub fn member_decorate(
        &mut self,
        target: u32,
        member: u32,
        decoration: u32,
        value: u32,
    ) -> Result<(), AllocError>
        ensures { OnOk result (Puts self.old self.new (op.MemberDecorate target member decoration (value ∷ []) ∷ [])) }
    {
        self.put(
            opcodes::MEMBER_DECORATE,
            &[target, member, decoration, value],
        )
    }

    pub fn type_void(&mut self, id: u32) -> Result<(), AllocError>
        ensures { OnOk result (Puts self.old self.new (op.TypeVoid id ∷ [])) }
    {
        self.put(opcodes::TYPE_VOID, &[id])
    }

    pub fn type_bool(&mut self, id: u32) -> Result<(), AllocError>
        ensures { OnOk result (Puts self.old self.new (op.TypeBool id ∷ [])) }
    {
        self.put(opcodes::TYPE_BOOL, &[id])
    }

    pub fn type_int(&mut self, id: u32, width: u32, sign: u32) -> Result<(), AllocError>
        ensures { OnOk result (Puts self.old self.new (op.TypeInt id width sign ∷ [])) }
    {
        self.put(opcodes::TYPE_INT, &[id, width, sign])
    }

    pub fn type_vector(&mut self, id: u32, component: u32, count: u32) -> Result<(), AllocError>
        ensures { OnOk result (Puts self.old self.new (op.TypeVector id component count ∷ [])) }
    {
        self.put(opcodes::TYPE_VECTOR, &[id, component, count])
    }

    pub fn type_runtime_array(&mut self, id: u32, element: u32) -> Result<(), AllocError>
        ensures { OnOk result (Puts self.old self.new (op.TypeRuntimeArray id element ∷ [])) }
    {
        self.put(opcodes::TYPE_RUNTIME_ARRAY, &[id, element])
    }

    pub fn type_pointer(&mut self, id: u32, class: u32, pointee: u32) -> Result<(), AllocError>
        ensures { OnOk result (Puts self.old self.new (op.TypePointer id class pointee ∷ [])) }
    {
        self.put(opcodes::TYPE_POINTER, &[id, class, pointee])
    }

    pub fn type_function(&mut self, id: u32, returned: u32) -> Result<(), AllocError>
        ensures { OnOk result (Puts self.old self.new (op.TypeFunction id returned ∷ [])) }
    {
        self.put(opcodes::TYPE_FUNCTION, &[id, returned])
    }

    pub fn constant(&mut self, result_type: u32, id: u32, value: u32) -> Result<(), AllocError>
        ensures { OnOk result (Puts self.old self.new (op.Constant result_type id value ∷ [])) }
    {
        self.put(opcodes::CONSTANT, &[result_type, id, value])
    }

    /// A variable without a first value.
    pub fn variable(&mut self, result_type: u32, id: u32, class: u32) -> Result<(), AllocError>
        ensures { OnOk result (Puts self.old self.new (op.Variable result_type id class [] ∷ [])) }
    {
        self.put(opcodes::VARIABLE, &[result_type, id, class])
    }

    pub fn variable_from(
        &mut self,
        result_type: u32,
        id: u32,
        class: u32,
        first_value: u32,
    ) -> Result<(), AllocError>
        ensures { OnOk result (Puts self.old self.new (op.Variable result_type id class (first_value ∷ []) ∷ [])) }
    {
        self.put(opcodes::VARIABLE, &[result_type, id, class, first_value])
    }

    pub fn function(
        &mut self,
        result_type: u32,
        id: u32,
        control: u32,
        function_type: u32,
    ) -> Result<(), AllocError>
        ensures { OnOk result (Puts self.old self.new (op.Function result_type id control function_type ∷ [])) }
    {
        self.put(
            opcodes::FUNCTION,
            &[result_type, id, control, function_type],
        )
    }

    pub fn function_end(&mut self) -> Result<(), AllocError>
        ensures { OnOk result (Puts self.old self.new (op.FunctionEnd ∷ [])) }
    {
        self.put(opcodes::FUNCTION_END, &[])
    }
}
