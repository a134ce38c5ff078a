// The whole module of a shader.

ghost use Rattle.std.specs.Prelude.{◌≡◌, ◌+◌, ◌-◌, ◌<◌, ◌≤◌, ◌^◌, ◌++◌, ◌∷◌, [], length, OnOk, IfOk};
ghost use Rattle.shader_model.specs.Good.{IsGood};
ghost use Rattle.shader_model.specs.Shader.{program_of};
ghost use Rattle.spirv_model.specs.Op as op;
ghost use Rattle.spirv_model.specs.Words.{words_of};
ghost use Rattle.spirv_emit.specs.Layout as id;
ghost use Rattle.spirv_emit.specs.Numbers.{numbers_of};
ghost use Rattle.spirv_emit.specs.Module.{preamble, constants, local, zero_variables, variables, body_start, module_ops, module_bound};
ghost use Rattle.spirv_emit.specs.Lower.{variable_count};
ghost use Rattle.spirv_emit.specs.Code.{body_end};
ghost use Rattle.spirv_emit.specs.Emits.{layout_of, Puts, Appends, Ready, function_code};

use crate::code::Code;
use crate::collect::numbers_of;
use crate::ids::{FIRST_NUMBER, MAIN, MAIN_TYPE, TO_VARIABLE, VOID_TYPE, WORD_TYPE};
use crate::nodes::{Exits, emit_nodes};
use crate::plan::Plan;
use dx_types::limits::LOOP_TURNS;
use shader_model::Shader;
use spirv_model::settings::NO_CONTROL;
use spirv_model::storage_classes::FUNCTION;
use spirv_words::Builder;
use std::alloc::{AllocError, Global};

impl Code {
    fn fresh(&mut self) -> u32
        requires { self.old.next + 1 < 2 ^ 32 }
        ensures id { result ≡ self.old.next }
        ensures next { self.new.next ≡ self.old.next + 1 }
        ensures words { self.new.words ≡ self.old.words }
    {
        let id = self.next;
        self.next = id + 1;
        id
    }

    fn number(&mut self, number: u32) -> Result<(), AllocError>
        requires { self.old.next + 1 < 2 ^ 32 }
        ensures { let n = self.old.next in OnOk result (Appends self.old self.new (op.Constant id.word_type n number ∷ []) (n + 1)) }
    {
        let id = self.fresh();
        self.constant(WORD_TYPE, id, number)?;
        Ok(())
    }

    fn numbers(&mut self, numbers: &[u32]) -> Result<(), AllocError>
        requires { self.old.next + length numbers.now < 2 ^ 32 }
        ensures { let n = self.old.next in OnOk result (Appends self.old self.new (constants n numbers.now) (n + length numbers.now)) }
    {
        for number in numbers {
            self.number(*number)?;
        }
        Ok(())
    }

    /// A variable of the function that begins with a number.
    fn local(&mut self, plan: &Plan, first_value: u32) -> Result<(), AllocError>
        requires { self.old.next + 1 < 2 ^ 32 }
        ensures { let n = self.old.next in OnOk result (Appends self.old self.new (local (layout_of plan.now) n first_value ∷ []) (n + 1)) }
    {
        let id = self.fresh();
        self.variable_from(TO_VARIABLE, id, FUNCTION, plan.number(first_value))?;
        Ok(())
    }

    fn locals(&mut self, plan: &Plan, count: u32) -> Result<(), AllocError>
        requires { self.old.next + count < 2 ^ 32 }
        ensures { let n = self.old.next in OnOk result (Appends self.old self.new (zero_variables (layout_of plan.now) n count) (n + count)) }
    {
        for _i in 0..count {
            self.local(plan, 0)?;
        }
        Ok(())
    }

    /// The turns first, then variables that begin as 0.
    fn variables(&mut self, plan: &Plan) -> Result<(), AllocError>
        requires place { self.old.next ≡ (layout_of plan.now).first_variable }
        requires some { 0 < plan.now.variables }
        ensures { let at = layout_of plan.now in OnOk result (Appends self.old self.new (variables at) (id.first_code at)) }
    {
        self.local(plan, LOOP_TURNS)?;
        self.locals(plan, plan.variables - 1)?;
        Ok(())
    }
}

/// The function: its variables, the code of the outermost block, and the end.
fn emit_function(plan: &Plan, shader: &Shader, code: &mut Code) -> Result<(), AllocError>
    requires place { code.old.next ≡ (layout_of plan.now).first_variable }
    requires variables { plan.now.variables ≡ variable_count shader.now.temps }
    requires ready { let at = layout_of plan.now in let p = program_of shader.now in Ready p.declared p.body (body_start at) }
    ensures { let at = layout_of plan.now in let p = program_of shader.now in OnOk result (Appends code.old code.new (function_code at p) (body_end p.declared p.body (body_start at))) }
{
    code.function(VOID_TYPE, MAIN, NO_CONTROL, MAIN_TYPE)?;
    let first = plan.first_variable() + plan.variables;
    code.label(first)?;
    code.variables(plan)?;
    let last = first + 1;
    code.next = first + 2;
    let exits = Exits {
        end: last,
        brk: last,
        cont: last,
    };
    emit_nodes(plan, shader.declared(), code, shader.body(), exits)?;
    code.label(last)?;
    code.leave()?;
    code.function_end()?;
    Ok(())
}

/// How many temporaries a shader has, which are at most 4,096.
fn temps_of(shader: &Shader) -> u32
    ensures value { result ≡ shader.now.temps }
    ensures few { result ≤ LOOP_TURNS }
    ensures good { IsGood (program_of shader.now) }
{
    let _body = shader.body();
    shader.temps()
}

fn plan_of(alloc: Global, shader: &Shader) -> Result<Plan, AllocError>
    ensures numbers { IfOk result (λ plan. plan.numbers ≡ numbers_of (program_of shader.now)) }
    ensures variables { IfOk result (λ plan. plan.variables ≡ variable_count shader.now.temps) }
    ensures few { IfOk result (λ plan. 61 + length plan.numbers + plan.variables < 2 ^ 30) }
    ensures good { OnOk result (IsGood (program_of shader.now)) }
{
    let numbers = numbers_of(alloc, shader)?;
    let variables = 25 + 4 * temps_of(shader);
    Ok(Plan {
        alloc,
        numbers,
        variables,
    })
}

/// The words of a shader's module without its header, and the bound of its ids.
pub fn emit_code(alloc: Global, shader: &Shader) -> Result<Code, AllocError>
    ensures words { IfOk result (λ code. code.words ≡ words_of (module_ops (program_of shader.now))) }
    ensures bound { IfOk result (λ code. code.next ≡ module_bound (program_of shader.now)) }
{
    let plan = plan_of(alloc, shader)?;
    let mut code = Code {
        words: Builder::new(alloc),
        next: FIRST_NUMBER,
    };
    code.preamble(shader.group())?;
    code.numbers(plan.numbers.as_slice())?;
    emit_function(&plan, shader, &mut code)?;
    Ok(code)
}
