// All invocations of a dispatch: groups by z, then y, then x, with x changing fastest, and the threads of a group
// likewise.

ghost use Rattle.std.specs.Prelude.{◌≡◌, ◌*◌, length, Some};
ghost use Rattle.shader_model.specs.Dispatch.{group_invocations, invocations, volume};
ghost use Rattle.shader_model.specs.PlacesLeft.{IsBelow};
ghost use Rattle.spirv_model.specs.Meaning.ModuleDispatch.{IsDefined, group_of, run_all, module_dispatched};
ghost use Rattle.spirv_model.specs.Meaning.ModuleMeaning.{module_meaning};
ghost use Rattle.spirv_run.specs.Tables.{IsFor};
ghost use Rattle.spirv_run.specs.Threads.{IsAllowed};

use crate::frame::Frame;
use crate::run::invoke;
use crate::table::Table;
use crate::thread::Thread;
use shader_model::{Ids, Places, volume};
use shader_slots::Slots;

/// There is a place along each of x, y and z.
fn has_three(places: [u32; 3])
    ensures { length places ≡ 3 }
{}

/// One thread of a group.
fn run_thread(
    table: &Table,
    groups: [u32; 3],
    group: [u32; 3],
    thread: [u32; 3],
    frame: &mut Frame,
    slots: &mut Slots<'_>,
)
    requires defined { IsDefined table.now }
    requires allowed { IsAllowed groups (group_of table.now) }
    requires room { IsFor frame.old table.now }
    requires group { IsBelow group groups }
    requires thread { IsBelow thread (group_of table.now) }
    ensures words { Some slots.new.words ≡ module_meaning table.now (record { group = group; thread = thread; size = group_of table.now }) slots.old.words }
    ensures around { slots.new.around ≡ slots.old.around }
    ensures room { IsFor frame.new table.now }
{
    slots.within_limit();
    has_three(group);
    has_three(thread);
    let size = table.group();
    let thread = Thread::new(Ids {
        group,
        thread,
        size,
    });
    let _ = invoke(table, &thread, frame, slots);
}

/// The threads of a group.
fn run_group(
    table: &Table,
    groups: [u32; 3],
    group: [u32; 3],
    frame: &mut Frame,
    slots: &mut Slots<'_>,
)
    requires defined { IsDefined table.now }
    requires allowed { IsAllowed groups (group_of table.now) }
    requires room { IsFor frame.old table.now }
    requires group { IsBelow group groups }
    ensures words { Some slots.new.words ≡ run_all table.now (group_invocations (group_of table.now) group) slots.old.words }
    ensures around { slots.new.around ≡ slots.old.around }
    ensures room { IsFor frame.new table.now }
{
    let mut threads = Places::below(table.group());
    'threads: while let Some(thread) = threads.next() {
        run_thread(table, groups, group, thread, frame, slots);
    }
}

/// All groups of a dispatch.
fn run_all_groups(table: &Table, groups: [u32; 3], frame: &mut Frame, slots: &mut Slots<'_>)
    requires defined { IsDefined table.now }
    requires allowed { IsAllowed groups (group_of table.now) }
    requires room { IsFor frame.old table.now }
    ensures words { Some slots.new.words ≡ run_all table.now (invocations groups (group_of table.now)) slots.old.words }
    ensures around { slots.new.around ≡ slots.old.around }
    ensures room { IsFor frame.new table.now }
{
    let mut places = Places::below(groups);
    'groups: while let Some(group) = places.next() {
        run_group(table, groups, group, frame, slots);
    }
}

/// How many invocations so many groups of a size have.
fn count(groups: [u32; 3], size: [u32; 3]) -> u64
    requires { IsAllowed groups size }
    ensures { result ≡ volume groups * volume size }
{
    (volume(groups) * volume(size)) as u64
}

/// Runs the invocations of so many groups in index order, and answers how many ran. The frame is one that was made for
/// this module.
pub fn run_groups(table: &Table, groups: [u32; 3], frame: &mut Frame, slots: &mut Slots<'_>) -> u64
    requires defined { IsDefined table.now }
    requires allowed { IsAllowed groups (group_of table.now) }
    requires room { IsFor frame.old table.now }
    ensures words { Some slots.new.words ≡ module_dispatched table.now groups slots.old.words }
    ensures around { slots.new.around ≡ slots.old.around }
    ensures room { IsFor frame.new table.now }
    ensures count { result ≡ volume groups * volume (group_of table.now) }
{
    run_all_groups(table, groups, frame, slots);
    count(groups, table.group())
}
