ghost use Rattle.std.specs.Prelude.{◌≡◌, ℕ, IfOk, OnOk, length};
ghost use Rattle.call_log.specs.Grammar.{calls_of};
ghost use Rattle.call_log.specs.View.{call_view};
ghost use Rattle.std.specs.Option.{option_copied};
ghost use Rattle.d3d_checks.specs.Accepted.{Accepted};
ghost use Rattle.d3d_checks.specs.Created.{shader_made};
ghost use Rattle.d3d_memory.specs.Limits.{HasRoom, InLimits};
ghost use Rattle.d3d_memory.specs.Meeting.{met_by};
ghost use Rattle.d3d_model.specs.D3dState.{calls_of_list};
ghost use Rattle.d3d_model.specs.Effect.{objects_after};
ghost use Rattle.d3d_model.specs.InOrder.{after_calls, before_call, initial};
ghost use Rattle.d3d_model.specs.Memory.{memory_after};
ghost use Rattle.d3d_model.specs.Past.{Past};
ghost use Rattle.d3d_model.specs.ReplyText.{answer, none_pending, reply_at};
ghost use Rattle.d3d_effects.specs.Slots.{AllFit};
ghost use Rattle.d3d_ref.specs.Stands.{IsCreated, Judged, Stands};
ghost use Rattle.d3d_state.specs.Meaning.{objects_of};

use crate::acts::act;
use call_log::{Call, Log};
use d3d_effects::apply;
use d3d_memory::{Memory, answer};
use d3d_state::{LiveShader, Objects, share};
use dx_types::{CallNo, Refusal, Reply};
use std::alloc::{AllocError, Global};

/// The Direct3D state between two calls of a log: what is live and set, and the bytes. The calls of lists are lent from the log.
#[derive(Drop)]
pub struct Machine<'a> {
    pub objects: Objects<'a>,
    pub memory: Memory,
}

impl<'a> Machine<'a> {
    /// Nothing is live.
    pub fn new(alloc: Global) -> Result<Machine<'a>, AllocError>
        ensures { IfOk result (λ m. Stands (objects_of m.objects) m.memory initial) }
    {
        let objects = Objects::new(alloc)?;
        Ok(Machine {
            objects,
            memory: Memory::new(alloc),
        })
    }

    /// Plays call n of a log, which is refused for this reason, or accepted. `shader` is the shader that it creates, if it
    /// creates one. The answer is what a run says of it.
    pub fn play(
        &mut self,
        alloc: Global,
        log: &'a Log<'_>,
        n: CallNo,
        refusal: Option<Refusal>,
        shader: Option<&LiveShader>,
    ) -> Result<Option<Reply>, AllocError>
        requires stands { Stands (objects_of self.old.objects) self.old.memory (before_call (calls_of log.now.frames) n) }
        requires judged { Judged (calls_of log.now.frames) n refusal }
        requires shader { IsCreated (calls_of log.now.frames) n refusal (option_copied shader) }
        ensures reply { IfOk result (λ reply. reply ≡ reply_at (calls_of log.now.frames) none_pending n) }
        ensures stands { OnOk result (Stands (objects_of self.new.objects) self.new.memory (after_calls (calls_of log.now.frames) n)) }
    {
        match log.item(n) {
            None => Ok(None),
            Some(item) => match refusal {
                Some(why) => Ok(Some(Reply::Refused { n, why })),
                None => {
                    // What a log keeps within limits is learnt with its count.
                    let _count = log.count();
                    let reply = self.execute(alloc, n, item.context, &item.call(), shader)?;
                    Ok(reply)
                }
            },
        }
    }

    // Plays call n, which is accepted on a context: its answer, if it has one, and then its effect.
    fn execute(
        &mut self,
        alloc: Global,
        n: CallNo,
        context: u16,
        call: &Call<'a>,
        shader: Option<&LiveShader>,
    ) -> Result<Option<Reply>, AllocError>
        requires accepted { Accepted (objects_of self.old.objects) context (call_view call.now) }
        requires limits { InLimits self.old.memory }
        requires room { (list : ℕ) → HasRoom self.old.memory (length (calls_of_list (objects_of self.old.objects) list)) }
        requires fit { (list : ℕ) → AllFit (calls_of_list (objects_of self.old.objects) list) }
        requires shader { option_copied shader ≡ shader_made n (call_view call.now) }
        ensures reply { (past : Past) → IfOk result (λ reply. reply ≡ answer n (met_by (objects_of self.old.objects) self.old.memory past) (call_view call.now)) }
        ensures objects { OnOk result (objects_of self.new.objects
            ≡ objects_after n (objects_of self.old.objects) context (call_view call.now)) }
        ensures memory { OnOk result (self.new.memory
            ≡ memory_after n (objects_of self.old.objects) self.old.memory context (call_view call.now)) }
    {
        let reply = answer(alloc, n, &self.memory, &self.objects, call)?;
        act(&mut self.memory, &self.objects, context, call)?;
        let created = share(shader)?;
        apply(&mut self.objects, n, context, call, created)?;
        Ok(reply)
    }
}
