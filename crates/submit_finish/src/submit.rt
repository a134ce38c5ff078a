ghost use Rattle.std.specs.Prelude.{◌≡◌, List, slice_get};
ghost use Rattle.core_model.specs.Succession.{Head, Log, BatchBy, SubmissionBy};
ghost use Rattle.submit_finish.specs.Dispatched.{shader_of_work, shader_of_op, dispatched};

use dx_types::CallNo;
use vk_types::{Batch, Submission, VkOp, Work};

/// Submits batches (after vkQueueSubmit2). It keeps nothing from one to the next.
#[derive(Clone, Copy, Debug, PartialEq, Eq)]
pub struct SubmitPart;

impl SubmitPart {
    pub fn new() -> SubmitPart {
        SubmitPart
    }

    /// The shader of the batch's dispatch number `i`, from 0, direct and indirect ones alike. A shader comes once for each of
    /// its dispatches. None past the last. It takes the time of one pass over the batch's operations.
    pub fn needs(&self, b: &Batch, i: u32) -> Option<CallNo>
        ensures { result ≡ slice_get (dispatched b.now.ops.items) i }
    {
        shader_at(&b.ops, i as usize)
    }

    /// The batch as it goes to the device. It is moved, and takes no memory.
    pub fn step(&mut self, b: Batch) -> Submission
        ensures batch { result.batch ≡ b }
        ensures follows { (log : Log) (front : List Head) → BatchBy log front b → SubmissionBy log front result }
    {
        Submission { batch: b }
    }
}

// The shader of the dispatch that stands behind `i` others.
fn shader_at(ops: &[VkOp], i: usize) -> Option<CallNo>
    ensures { result ≡ slice_get (dispatched ops.now) i }
{
    ops.iter().filter_map(dispatched_shader).nth(i)
}

// The shader of an operation that is a dispatch.
fn dispatched_shader(op: &VkOp) -> Option<CallNo>
    ensures { result ≡ shader_of_op op.now }
{
    match op {
        VkOp::Command(command) => shader_of(&command.work),
        VkOp::HostWrite { .. }
        | VkOp::Pipeline { .. }
        | VkOp::Barrier(_)
        | VkOp::Submit(_)
        | VkOp::Fence(_)
        | VkOp::HostRead { .. } => None,
    }
}

fn shader_of(work: &Work) -> Option<CallNo>
    ensures { result ≡ shader_of_work work.now }
{
    match work {
        Work::Dispatch { shader, .. } => Some(*shader),
        Work::Copy { .. } | Work::Fill { .. } | Work::Clear { .. } => None,
    }
}
