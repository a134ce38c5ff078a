// What the machine makes of two modules.

ghost use Rattle.std.specs.Prelude.{◌≡◌, true, IfOk};
ghost use Rattle.shader_model.specs.Dispatch.{is_allowed};
ghost use Rattle.spirv_model.specs.Meaning.ModuleDispatch.{IsDefined};

use crate::samples::{COUNTER, MINIMAL};
use shader_slots::{Slots, Whole};
use spirv_run::Machine;
use spirv_words::{Module, ModuleEnd, read_module};
use std::alloc::Global;
use std::process::Abort;
use std::test::Fail;

/// The smallest module, of which each invocation has an outcome.
fn minimal(alloc: Global) -> Result<Module, ModuleEnd>
    ensures { IfOk result IsDefined }
{
    let module = read_module(alloc, &MINIMAL)?;
    Ok(module)
}

/// The module that counts invocations, of which each has an outcome.
fn counter(alloc: Global) -> Result<Module, ModuleEnd>
    ensures { IfOk result IsDefined }
{
    let module = read_module(alloc, &COUNTER)?;
    Ok(module)
}

/// Whether a dispatch of a module may have so many groups of this size.
fn is_few(groups: [u32; 3], size: [u32; 3]) -> bool
    ensures { result ≡ true → is_allowed groups size ≡ true }
{
    let [x, y, z] = groups;
    let [a, b, c] = size;
    if x > 65_535 || y > 65_535 || z > 65_535 || a > 1024 || b > 1024 || c > 1024 {
        return false;
    }
    let count = x as u128 * y as u128 * z as u128;
    let threads = a as u128 * b as u128 * c as u128;
    count * threads <= 16_777_216
}

/// Runs so many groups, where there may be so many.
fn dispatch(machine: &mut Machine, groups: [u32; 3], slots: &mut Slots<'_>) -> Result<u64, Fail>
    requires { IsDefined machine.old }
    ensures { machine.new ≡ machine.old }
{
    if !is_few(groups, machine.group()) {
        return Err("too many groups".into());
    }
    Ok(machine.dispatch(groups, slots))
}

/// Bytes with a part of them.
fn part(alloc: Global, bytes: &[u8], from: usize) -> Result<Whole, Fail> {
    let bytes = bytes.to_vec(alloc)?;
    let to = bytes.len();
    if from > to || (to - from) % 4 != 0 || to - from > 16_777_216 {
        return Err("no part".into());
    }
    Ok(Whole::new(bytes, from, to))
}

/// A word of an unordered access view, None behind its end.
fn word(slots: &Slots<'_>, slot: usize, place: usize) -> Option<u32> {
    if place < slots.write_len(slot) {
        Some(slots.write_word(slot, place))
    } else {
        None
    }
}

#[test]
fn leaves_slots(rt: HostRuntime) -> Result<(), Fail> {
    let module = minimal(rt.alloc())?;
    let mut machine = Machine::new(rt.alloc(), &module)?;
    let mut slots = Slots::new();
    slots.bind_write(7, part(rt.alloc(), &[1, 0, 0, 0, 2, 0, 0, 0], 0)?);
    assert_eq!(rt; dispatch(&mut machine, [3, 2, 1], &mut slots)?, 48);
    assert_eq!(rt; slots.write_len(7), 2);
    assert_eq!(rt; word(&slots, 7, 0), Some(1));
    assert_eq!(rt; word(&slots, 7, 1), Some(2));
    assert_eq!(rt; dispatch(&mut machine, [3, 0, 65_535], &mut slots)?, 0);
    Ok(())
}

/// The places of the execution mode in the smallest module.
const MODE: usize = 15;

const BEHIND_MODE: usize = 21;

/// Execution modes in place of the smallest module's own, and the group that it has then.
struct Modes {
    modes: &'static [u32],
    group: [u32; 3],
}

static MODES: [Modes; 3] = [
    Modes {
        modes: &[],
        group: [1, 1, 1],
    },
    Modes {
        modes: &[0x60010, 3, 17, 4, 2, 1],
        group: [4, 2, 1],
    },
    Modes {
        modes: &[0x60010, 3, 17, 8, 5, 7, 0x60010, 3, 17, 4, 2, 1],
        group: [8, 5, 7],
    },
];

/// The group of the smallest module with these execution modes in place of its own.
fn group_with(alloc: Global, modes: &[u32]) -> Result<[u32; 3], Fail> {
    let mut words = MINIMAL.get(..MODE).ok_or("the front")?.to_vec(alloc)?;
    words.extend_from_slice(modes)?;
    words.extend_from_slice(MINIMAL.get(BEHIND_MODE..).ok_or("the rest")?)?;
    if words.len() > 1000 {
        return Err("too many words".into());
    }
    let module = read_module(alloc, &words)?;
    let machine = Machine::new(alloc, &module)?;
    Ok(machine.group())
}

#[test]
fn takes_the_first_group(rt: HostRuntime) -> Result<(), Fail> {
    for Modes { modes, group } in &MODES {
        assert_eq!(rt; &group_with(rt.alloc(), modes)?, group);
    }
    Ok(())
}

/// What the invocation of a number stores: of two groups in a row, three rows, four planes, each of two threads in a row
/// and two planes.
fn place_of(number: u32) -> u32 {
    let x = number / 4 % 2 * 2 + number % 2;
    let y = number / 8 % 3;
    let z = number / 24 % 4 * 2 + number / 2 % 2;
    x + 256 * (y + 256 * z)
}

/// What a dispatch of the counter's module leaves in unordered access view 0, behind so many bytes of 0.
fn counted(
    rt: &impl Abort,
    alloc: Global,
    bytes: &[u8],
    from: usize,
    groups: [u32; 3],
    count: u64,
) -> Result<Slots<'static>, Fail> {
    let module = counter(alloc)?;
    let mut machine = Machine::new(alloc, &module)?;
    let mut slots = Slots::new();
    slots.bind_write(0, part(alloc, bytes, from)?);
    assert_eq!(rt; dispatch(&mut machine, groups, &mut slots)?, count);
    Ok(slots)
}

fn has_places(rt: &impl Abort, slots: &Slots<'_>) {
    for number in 0..96 {
        let place = number as usize + 1;
        assert_eq!(rt;
            word(slots, 0, place),
            Some(place_of(number)),
            "of {number}"
        );
    }
}

#[test]
fn runs_in_index_order(rt: HostRuntime) -> Result<(), Fail> {
    let slots = counted(&rt, rt.alloc(), &[0; 400], 4, [2, 3, 4], 96)?;
    assert_eq!(rt; slots.write_len(0), 99);
    assert_eq!(rt; word(&slots, 0, 0), Some(96));
    has_places(&rt, &slots);
    assert_eq!(rt; word(&slots, 0, 97), Some(0));
    Ok(())
}

#[test]
fn runs_as_many_as_there_may_be(rt: HostRuntime) -> Result<(), Fail> {
    let slots = counted(&rt, rt.alloc(), &[0; 4], 0, [2048, 2048, 1], 16_777_216)?;
    assert_eq!(rt; slots.write_len(0), 1);
    assert_eq!(rt; word(&slots, 0, 0), Some(16_777_216));
    Ok(())
}
