// What an invocation keeps while it runs.

ghost use Rattle.std.specs.Prelude.{◌≡◌, length, replicate, IfOk};
ghost use Rattle.shader_eval.specs.Frames.{IsFor};

use crate::temps::Temps;
use dx_types::limits::LOOP_TURNS;
use shader_model::Shader;
use std::alloc::{AllocError, Global};

/// The temporaries of an invocation, and how many turns its loops have left. It is made once for a shader, and serves
/// one invocation after another.
#[derive(Drop)]
pub struct Frame {
    pub(crate) temps: Temps,
    pub(crate) turns: u32,
}

impl Frame {
    /// A frame for the invocations of a shader.
    pub fn new(alloc: Global, shader: &Shader) -> Result<Frame, AllocError>
        ensures { IfOk result (λ frame. IsFor frame shader.now) }
    {
        let temps = Temps::new(alloc, shader.temps())?;
        Ok(Frame {
            temps,
            turns: LOOP_TURNS,
        })
    }

    /// Begins an invocation: all temporaries are 0, and all turns are left.
    pub(crate) fn begin(&mut self)
        ensures temps { self.new.temps ≡ replicate (length self.old.temps) 0 }
        ensures turns { self.new.turns ≡ LOOP_TURNS }
    {
        self.temps.clear();
        self.turns = LOOP_TURNS;
    }
}
