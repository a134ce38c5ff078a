// All invocations of a dispatch: groups by z, then y, then x, with x changing fastest, and the threads of a group
// likewise.

ghost use Rattle.std.specs.Prelude.{◌≡◌, ◌≤◌, ◌*◌, if◌then◌else◌, slice_index, Some, None};
ghost use Rattle.shader_model.specs.Shader.{program_of};
ghost use Rattle.shader_model.specs.Dispatch.{group_invocations, invocations, run_all, dispatched, is_allowed, count_of, volume};
ghost use Rattle.shader_eval.specs.Frames.{IsFor};
ghost use Rattle.shader_eval.specs.Threads.{AllBelow};
ghost use Rattle.dx_types.specs.declared.limits.TheConstants.{MAX_GROUPS};

use crate::frame::Frame;
use crate::invocation::invoke;
use shader_model::{Ids, Places, Shader, is_allowed, volume};
use shader_slots::Slots;

/// The threads of a group.
fn run_group(shader: &Shader, group: [u32; 3], frame: &mut Frame, slots: &mut Slots<'_>)
    requires made { IsFor frame.old shader.now }
    requires group { AllBelow MAX_GROUPS group }
    ensures words { slots.new.words ≡ run_all (program_of shader.now) (group_invocations shader.now.group group) slots.old.words }
    ensures around { slots.new.around ≡ slots.old.around }
    ensures made { IsFor frame.new shader.now }
{
    let size = shader.group();
    let mut threads = Places::below(size);
    'threads: while let Some(thread) = threads.next() {
        let ids = Ids {
            group,
            thread,
            size,
        };
        invoke(shader, &ids, frame, slots);
    }
}

/// All groups of a dispatch.
fn run_all_groups(shader: &Shader, groups: [u32; 3], frame: &mut Frame, slots: &mut Slots<'_>)
    requires made { IsFor frame.old shader.now }
    requires x { slice_index groups 0 ≤ MAX_GROUPS }
    requires y { slice_index groups 1 ≤ MAX_GROUPS }
    requires z { slice_index groups 2 ≤ MAX_GROUPS }
    ensures words { slots.new.words ≡ run_all (program_of shader.now) (invocations groups shader.now.group) slots.old.words }
    ensures around { slots.new.around ≡ slots.old.around }
    ensures made { IsFor frame.new shader.now }
{
    let mut places = Places::below(groups);
    'groups: while let Some(group) = places.next() {
        run_group(shader, group, frame, slots);
    }
}

/// How many invocations so many groups of a size have, None where a dispatch may not be so large.
fn count_allowed(groups: [u32; 3], size: [u32; 3]) -> Option<u64>
    ensures { result ≡ (if is_allowed groups size then Some (volume groups * volume size) else None) }
{
    if !is_allowed(groups, size) {
        return None;
    }
    Some((volume(groups) * volume(size)) as u64)
}

/// Runs the invocations of so many groups in index order, and answers how many ran. Where a count is above 65,535, or
/// there are more than 16,777,216 invocations, none runs. The frame is one that was made for this shader.
pub fn run_groups(
    shader: &Shader,
    groups: [u32; 3],
    frame: &mut Frame,
    slots: &mut Slots<'_>,
) -> u64
    requires { IsFor frame.old shader.now }
    ensures count { result ≡ count_of (program_of shader.now) groups }
    ensures words { slots.new.words ≡ dispatched (program_of shader.now) groups slots.old.words }
    ensures around { slots.new.around ≡ slots.old.around }
    ensures made { IsFor frame.new shader.now }
{
    // What a shader keeps of the size of its group is learnt with its nodes.
    let _nodes = shader.body();
    let Some(count) = count_allowed(groups, shader.group()) else {
        return 0;
    };
    run_all_groups(shader, groups, frame, slots);
    count
}
