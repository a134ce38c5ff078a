// One invocation of a shader.

ghost use Rattle.std.specs.Prelude.{◌≡◌};
ghost use Rattle.shader_model.specs.Good.{IsGood};
ghost use Rattle.shader_model.specs.Shader.{program_of};
ghost use Rattle.shader_model.specs.Invocation.{invoked};
ghost use Rattle.shader_eval.specs.Frames.{IsFor};
ghost use Rattle.shader_model.specs.PlacesLeft.{IsBelow};
ghost use Rattle.shader_eval.specs.Threads.{AllBelow};
ghost use Rattle.dx_types.specs.declared.limits.TheConstants.{MAX_GROUPS};

use crate::frame::Frame;
use crate::run::run_nodes;
use crate::thread::Thread;
use shader_model::{Ids, Shader};
use shader_slots::Slots;

/// Runs one invocation of a shader on the words of the slots. The frame is one that was made for this shader; it may
/// serve again afterwards. It takes no memory.
pub fn invoke(shader: &Shader, ids: &Ids, frame: &mut Frame, slots: &mut Slots<'_>)
    requires made { IsFor frame.old shader.now }
    requires size { ids.now.size ≡ shader.now.group }
    requires thread { IsBelow ids.now.thread ids.now.size }
    requires group { AllBelow MAX_GROUPS ids.now.group }
    ensures words { slots.new.words ≡ invoked (program_of shader.now) ids.now slots.old.words }
    ensures around { slots.new.around ≡ slots.old.around }
    ensures made { IsFor frame.new shader.now }
{
    let nodes = shader.body();
    let thread = Thread::new(*ids);
    frame.begin();
    let _ = run_nodes(&thread, shader.declared(), nodes, frame, slots);
}
