// What stands in a module before its numbers.

ghost use Rattle.std.specs.Prelude.{◌<◌, ◌∷◌, [], map, replicate, flat_map, OnOk};
ghost use Rattle.spirv_model.specs.Op as op;
ghost use Rattle.spirv_model.specs.declared.settings.TheConstants as setting;
ghost use Rattle.spirv_emit.specs.Numbers.{from_on};
ghost use Rattle.spirv_emit.specs.Layout as id;
ghost use Rattle.spirv_emit.specs.Module.{interface, settings, decorations, decorations_of_blocks, decorations_of_inputs, types, types_of_words, types_of_blocks, types_of_pointers, types_of_buffers, inputs, preamble, offset_of, place_of, buffers, buffer_variable};
ghost use Rattle.spirv_emit.specs.Emits.{Puts};

use crate::code::Code;
use crate::ids::{
    ARRAY_TYPE, BUFFER_BLOCK, FIRST_BUFFER, GLOBAL_ID, GROUP_ID, LENGTHS, LENGTHS_BLOCK, MAIN,
    MAIN_TYPE, PAIR_TYPE, THREAD_ID, THREAD_INDEX, TO_BUFFER, TO_INPUT_VECTOR, TO_INPUT_WORD,
    TO_LENGTH, TO_LENGTHS, TO_VARIABLE, TO_WORD, TRUTH_TYPE, VECTOR_TYPE, VOID_TYPE, WORD_TYPE,
};
use dx_types::limits::MODULE_BINDINGS;
use spirv_model::built_ins::{
    GLOBAL_INVOCATION_ID, LOCAL_INVOCATION_ID, LOCAL_INVOCATION_INDEX, WORKGROUP_ID,
};
use spirv_model::decorations::{ARRAY_STRIDE, BINDING, BLOCK, BUILT_IN, DESCRIPTOR_SET, OFFSET};
use spirv_model::opcodes;
use spirv_model::settings::{
    GL_COMPUTE, GLSL_450, LOCAL_SIZE, LOGICAL, NAME_END, NAME_MAIN, ONLY_SET, SHADER, UNSIGNED,
    WORD_BYTES, WORD_WIDTH,
};
use spirv_model::storage_classes::{FUNCTION, INPUT, PUSH_CONSTANT, STORAGE_BUFFER};
use std::alloc::AllocError;

// A compute shader that begins at `main`, with all variables of the module: the inputs, the lengths and the buffers.
const ENTRY_POINT: [u32; 47] = [
    GL_COMPUTE,
    MAIN,
    NAME_MAIN,
    NAME_END,
    GROUP_ID,
    THREAD_ID,
    GLOBAL_ID,
    THREAD_INDEX,
    LENGTHS,
    22,
    23,
    24,
    25,
    26,
    27,
    28,
    29,
    30,
    31,
    32,
    33,
    34,
    35,
    36,
    37,
    38,
    39,
    40,
    41,
    42,
    43,
    44,
    45,
    46,
    47,
    48,
    49,
    50,
    51,
    52,
    53,
    54,
    55,
    56,
    57,
    58,
    59,
];

impl Code {
    fn entry_point(&mut self) -> Result<(), AllocError>
        ensures { OnOk result (Puts self.old self.new (op.EntryPoint setting.GL_COMPUTE id.main setting.NAME_MAIN setting.NAME_END interface ∷ [])) }
    {
        self.put(opcodes::ENTRY_POINT, &ENTRY_POINT)
    }

    fn settings(&mut self, group: [u32; 3]) -> Result<(), AllocError>
        ensures { OnOk result (Puts self.old self.new (settings group)) }
    {
        self.capability(SHADER)?;
        self.memory_model(LOGICAL, GLSL_450)?;
        self.entry_point()?;
        self.execution_mode(MAIN, LOCAL_SIZE, group)?;
        Ok(())
    }

    fn decorate_blocks(&mut self) -> Result<(), AllocError>
        ensures { OnOk result (Puts self.old self.new decorations_of_blocks) }
    {
        self.decorate_by(ARRAY_TYPE, ARRAY_STRIDE, WORD_BYTES)?;
        self.decorate(BUFFER_BLOCK, BLOCK)?;
        self.member_decorate(BUFFER_BLOCK, 0, OFFSET, 0)?;
        self.decorate(LENGTHS_BLOCK, BLOCK)?;
        Ok(())
    }

    fn decorate_inputs(&mut self) -> Result<(), AllocError>
        ensures { OnOk result (Puts self.old self.new decorations_of_inputs) }
    {
        self.decorate_by(GROUP_ID, BUILT_IN, WORKGROUP_ID)?;
        self.decorate_by(THREAD_ID, BUILT_IN, LOCAL_INVOCATION_ID)?;
        self.decorate_by(GLOBAL_ID, BUILT_IN, GLOBAL_INVOCATION_ID)?;
        self.decorate_by(THREAD_INDEX, BUILT_IN, LOCAL_INVOCATION_INDEX)?;
        Ok(())
    }

    fn decorate_lengths(&mut self) -> Result<(), AllocError>
        ensures { OnOk result (Puts self.old self.new (map offset_of (from_on 0 MODULE_BINDINGS))) }
    {
        for binding in 0..MODULE_BINDINGS {
            self.member_decorate(LENGTHS_BLOCK, binding, OFFSET, WORD_BYTES * binding)?;
        }
        Ok(())
    }

    /// The descriptor set and the binding of a buffer.
    fn decorate_buffer(&mut self, binding: u32) -> Result<(), AllocError>
        requires { binding < MODULE_BINDINGS }
        ensures { OnOk result (Puts self.old self.new (place_of binding)) }
    {
        let buffer = FIRST_BUFFER + binding;
        self.decorate_by(buffer, DESCRIPTOR_SET, ONLY_SET)?;
        self.decorate_by(buffer, BINDING, binding)?;
        Ok(())
    }

    fn decorate_buffers(&mut self) -> Result<(), AllocError>
        ensures { OnOk result (Puts self.old self.new (flat_map place_of (from_on 0 MODULE_BINDINGS))) }
    {
        for binding in 0..MODULE_BINDINGS {
            self.decorate_buffer(binding)?;
        }
        Ok(())
    }

    fn decorations(&mut self) -> Result<(), AllocError>
        ensures { OnOk result (Puts self.old self.new decorations) }
    {
        self.decorate_blocks()?;
        self.decorate_inputs()?;
        self.decorate_lengths()?;
        self.decorate_buffers()?;
        Ok(())
    }

    fn word_types(&mut self) -> Result<(), AllocError>
        ensures { OnOk result (Puts self.old self.new types_of_words) }
    {
        self.type_void(VOID_TYPE)?;
        self.type_function(MAIN_TYPE, VOID_TYPE)?;
        self.type_int(WORD_TYPE, WORD_WIDTH, UNSIGNED)?;
        self.type_bool(TRUTH_TYPE)?;
        self.type_vector(VECTOR_TYPE, WORD_TYPE, 3)?;
        Ok(())
    }

    fn pair_type(&mut self) -> Result<(), AllocError>
        ensures { OnOk result (Puts self.old self.new (op.TypeStruct id.pair_type (id.word_type ∷ id.word_type ∷ []) ∷ [])) }
    {
        self.put(opcodes::TYPE_STRUCT, &[PAIR_TYPE, WORD_TYPE, WORD_TYPE])
    }

    fn buffer_block(&mut self) -> Result<(), AllocError>
        ensures { OnOk result (Puts self.old self.new (op.TypeStruct id.buffer_block (id.array_type ∷ []) ∷ [])) }
    {
        self.put(opcodes::TYPE_STRUCT, &[BUFFER_BLOCK, ARRAY_TYPE])
    }

    fn lengths_block(&mut self) -> Result<(), AllocError>
        ensures { OnOk result (Puts self.old self.new (op.TypeStruct id.lengths_block (replicate id.bindings id.word_type) ∷ [])) }
    {
        let mut operands = [WORD_TYPE; 39];
        operands[0] = LENGTHS_BLOCK;
        self.put(opcodes::TYPE_STRUCT, &operands)
    }

    fn block_types(&mut self) -> Result<(), AllocError>
        ensures { OnOk result (Puts self.old self.new types_of_blocks) }
    {
        self.pair_type()?;
        self.type_runtime_array(ARRAY_TYPE, WORD_TYPE)?;
        self.buffer_block()?;
        self.lengths_block()?;
        Ok(())
    }

    fn pointer_types(&mut self) -> Result<(), AllocError>
        ensures { OnOk result (Puts self.old self.new types_of_pointers) }
    {
        self.type_pointer(TO_INPUT_VECTOR, INPUT, VECTOR_TYPE)?;
        self.type_pointer(TO_INPUT_WORD, INPUT, WORD_TYPE)?;
        self.type_pointer(TO_VARIABLE, FUNCTION, WORD_TYPE)?;
        self.type_pointer(TO_LENGTHS, PUSH_CONSTANT, LENGTHS_BLOCK)?;
        Ok(())
    }

    fn buffer_types(&mut self) -> Result<(), AllocError>
        ensures { OnOk result (Puts self.old self.new types_of_buffers) }
    {
        self.type_pointer(TO_LENGTH, PUSH_CONSTANT, WORD_TYPE)?;
        self.type_pointer(TO_BUFFER, STORAGE_BUFFER, BUFFER_BLOCK)?;
        self.type_pointer(TO_WORD, STORAGE_BUFFER, WORD_TYPE)?;
        Ok(())
    }

    fn inputs(&mut self) -> Result<(), AllocError>
        ensures { OnOk result (Puts self.old self.new inputs) }
    {
        self.variable(TO_INPUT_VECTOR, GROUP_ID, INPUT)?;
        self.variable(TO_INPUT_VECTOR, THREAD_ID, INPUT)?;
        self.variable(TO_INPUT_VECTOR, GLOBAL_ID, INPUT)?;
        self.variable(TO_INPUT_WORD, THREAD_INDEX, INPUT)?;
        self.variable(TO_LENGTHS, LENGTHS, PUSH_CONSTANT)?;
        Ok(())
    }

    fn buffers(&mut self) -> Result<(), AllocError>
        ensures { OnOk result (Puts self.old self.new (map buffer_variable buffers)) }
    {
        for buffer in FIRST_BUFFER..MAIN {
            self.variable(TO_BUFFER, buffer, STORAGE_BUFFER)?;
        }
        Ok(())
    }

    fn types(&mut self) -> Result<(), AllocError>
        ensures { OnOk result (Puts self.old self.new types) }
    {
        self.word_types()?;
        self.block_types()?;
        self.pointer_types()?;
        self.buffer_types()?;
        self.inputs()?;
        self.buffers()?;
        Ok(())
    }

    /// All that stands before the module's own numbers.
    pub fn preamble(&mut self, group: [u32; 3]) -> Result<(), AllocError>
        ensures { OnOk result (Puts self.old self.new (preamble group)) }
    {
        self.settings(group)?;
        self.decorations()?;
        self.types()?;
        Ok(())
    }
}
