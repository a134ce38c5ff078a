//! Device memory, used only once it is seen that it can be used so.

ghost use Rattle.std.specs.Prelude.{◌≡◌, true, None};
ghost use Rattle.device_memory.specs.Held.{IsHeld};
ghost use Rattle.device_memory.specs.Ranges.{CanBind, CanCount, CanSkip};
ghost use Rattle.device_memory.specs.Runs.{CanWork};

use crate::counter::counting_module;
use buffer_blocks::Block;
use device_memory::DeviceMemory;
use dx_types::Range;
use spirv_run::Machine;
use std::alloc::Global;
use std::test::Fail;
use vk_types::{Command, Cond, Groups, SlotList, SlotName, SlotRange, Work};

pub(crate) fn bytes(memory: &DeviceMemory, number: u32) -> &[u8] {
    match memory.block(number) {
        Some(block) => block.part(0, block.len()),
        None => &[],
    }
}

fn add(memory: &mut DeviceMemory, block: Block) -> Result<(), Fail> {
    if memory.holds(block.number) {
        return Err("it is held".into());
    }
    memory.add(block)?;
    Ok(())
}

/// Blocks 7 and 9 of 16 bytes, and block 20 of 32.
pub(crate) fn three_blocks(alloc: Global) -> Result<DeviceMemory, Fail> {
    let mut memory = DeviceMemory::new(alloc);
    for (number, len) in [(9, 16), (7, 16), (20, 32)] {
        add(&mut memory, Block::new(alloc, number, len)?)?;
    }
    Ok(memory)
}

fn has(memory: &DeviceMemory, r: &Range) -> bool
    ensures { result ≡ true → IsHeld memory.now r.now }
{
    match memory.block(r.block) {
        Some(block) => r.from <= r.to && r.to <= block.len(),
        None => false,
    }
}

pub(crate) fn write(memory: &mut DeviceMemory, target: Range, bytes: &[u8]) -> Result<(), Fail> {
    if !has(memory, &target) || target.to.saturating_sub(target.from) != bytes.len() as u64 {
        return Err("this can't be written".into());
    }
    memory.write(&target, bytes);
    Ok(())
}

fn can_work(memory: &DeviceMemory, work: &Work) -> bool
    ensures { result ≡ true → CanWork memory.now work.now None }
{
    match work {
        Work::Copy { source, target } => {
            let size = target.to.saturating_sub(target.from);
            has(memory, source)
                && has(memory, target)
                && source.to.saturating_sub(source.from) == size
        }
        Work::Fill { target, .. } => has(memory, target),
        Work::Clear { target, unit, .. } => has(memory, target) && *unit >= 1 && *unit <= 4,
        Work::Dispatch { .. } => false,
    }
}

fn can_skip(memory: &DeviceMemory, cond: &Option<Cond>) -> bool
    ensures { result ≡ true → CanSkip memory.now cond.now }
{
    match cond {
        Some(c) => has(memory, &c.at) && c.at.to.saturating_sub(c.at.from) == 4,
        None => true,
    }
}

/// Runs a command that is no dispatch.
pub(crate) fn run(memory: &mut DeviceMemory, c: &Command) -> Result<u64, Fail> {
    if !can_work(memory, &c.work) || !can_skip(memory, &c.cond) {
        return Err("this can't be run".into());
    }
    Ok(memory.run(c))
}

fn can_count(memory: &DeviceMemory, groups: &Groups) -> bool
    ensures { result ≡ true → CanCount memory.now groups.now }
{
    match groups {
        Groups::Direct { .. } => true,
        Groups::Indirect { at } => has(memory, at) && at.to.saturating_sub(at.from) == 12,
    }
}

fn can_bind(memory: &DeviceMemory, s: &SlotRange) -> bool
    ensures { result ≡ true → CanBind memory.now s.now }
{
    let size = s.range.to.saturating_sub(s.range.from);
    let exists = match s.slot {
        SlotName::Constant(i) => i < 14,
        SlotName::Srv(i) => i < 16,
        SlotName::Uav(i) => i < 8,
    };
    exists && has(memory, &s.range) && size % 4 == 0 && size <= 16_777_216
}

/// Dispatches the counting module on a range that it may write, and one that it may read.
pub(crate) fn dispatch(
    memory: &mut DeviceMemory,
    alloc: Global,
    groups: Groups,
    uav: Range,
    srv: Range,
) -> Result<u64, Fail> {
    let written = SlotRange {
        slot: SlotName::Uav(0),
        range: uav,
    };
    let read = SlotRange {
        slot: SlotName::Srv(3),
        range: srv,
    };
    if !can_bind(memory, &written) || !can_bind(memory, &read) || uav.block == srv.block {
        return Err("these can't be bound".into());
    }
    if !can_count(memory, &groups) {
        return Err("these are no counts".into());
    }
    let slots = [written, read].to_vec(alloc)?;
    let c = Command {
        number: 1,
        call: 1,
        work: Work::Dispatch {
            shader: 1,
            groups,
            slots: SlotList::new(slots),
        },
        cond: None,
    };
    let module = counting_module(alloc)?;
    let mut machine = Machine::new(alloc, &module)?;
    Ok(memory.dispatch(&c, &mut machine))
}
