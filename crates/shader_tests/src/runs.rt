// What dispatches leave, by the tree and by the module.

use crate::building::shader_of;
use crate::computes::{ATOMICS, Atomic, COMPUTES, Computes, OLD, SOURCES, VALUES};
use crate::dispatches::{BOTH, By, leaves};
use crate::operations::{Case, OPERATIONS, Operand, Operation};
use crate::shaders::{GROUPED, Runs, SHADERS};
use shader_tokens::ShaderEnd;
use spirv_emit::emit;
use spirv_words::{ModuleEnd, read_module};
use std::alloc::{AllocError, Global};
use std::process::Abort;
use std::test::Fail;

/// The generator's counter shader: it adds 1 to the counter (input[thread] + constant) mod 256.
static COUNTER: [u32; 63] = [
    0x401, 0x40, 1, 1, 0x202, 1, 0x203, 0, 0x404, 0, 0, 0, 0x405, 0, 0, 0, 0x820, 0x10, 3, 1, 2, 0,
    0, 0, 0x430, 0x10, 0, 0, 0x512, 0x10, 0, 2, 0, 0x81c, 0x10, 0, 1, 0xff, 0, 0, 0, 0x820, 0x10,
    0, 1, 2, 0, 0, 0, 0xe38, 7, 0x100, 0, 1, 0, 0, 0, 0, 1, 1, 0, 0, 0,
];

/// Adds a source of four numbers.
fn push_numbers(items: &mut Vec<u32>, [x, y, z, w]: [u32; 4]) -> Result<(), AllocError> {
    items.extend_from_slice(&[0xe41, x, y, z, w])
}

/// Adds a source of one number.
fn push_number(items: &mut Vec<u32>, number: u32) -> Result<(), AllocError> {
    items.extend_from_slice(&[1, number, 0, 0, 0])
}

/// Adds a store of a source's four components.
fn push_store(items: &mut Vec<u32>, address: u32, source: u32) -> Result<(), AllocError> {
    items.extend_from_slice(&[0xf0831, 0x100, 1, address, 0, 0, 0, source])
}

/// Adds an instruction on one row of the sources.
fn push_instruction(
    items: &mut Vec<u32>,
    case: &Computes,
    sources: &[[u32; 4]; 4],
) -> Result<(), AllocError> {
    items.push(case.first)?;
    for destination in case.destinations {
        items.push(destination.target)?;
    }
    for source in sources.iter().take(case.sources) {
        push_numbers(items, *source)?;
    }
    Ok(())
}

/// A shader that stores, one behind the other, what an instruction computes of each row of the sources.
fn computing(alloc: Global, case: &Computes) -> Result<Vec<u32>, AllocError> {
    let mut items = [0x401, 1, 1, 1, 0x202, 2, 0x405, 0, 0, 0].to_vec(alloc)?;
    let mut address: u32 = 0;
    for sources in &SOURCES {
        push_instruction(&mut items, case, sources)?;
        for destination in case.destinations {
            push_store(&mut items, address, destination.source)?;
            address = address.wrapping_add(16);
        }
    }
    Ok(items)
}

/// Adds an atomic on the word at an address.
fn push_atomic(
    items: &mut Vec<u32>,
    first: u32,
    target: u32,
    address: u32,
    value: u32,
) -> Result<(), AllocError> {
    items.extend_from_slice(&[first, target, 0x100])?;
    for source in [address, 0, value] {
        push_number(items, source)?;
    }
    Ok(())
}

/// A shader of four atomics, which stores the old words behind the new ones.
fn changing(alloc: Global, first: u32) -> Result<Vec<u32>, AllocError> {
    let mut items = [0x401, 1, 1, 1, 0x202, 1, 0x405, 0, 0, 0].to_vec(alloc)?;
    let mut address: u32 = 0;
    for (value, target) in VALUES {
        push_atomic(&mut items, first, target, address, value)?;
        address = address.wrapping_add(4);
    }
    push_store(&mut items, 16, 0xe40)?;
    Ok(items)
}

fn shows_instruction(rt: &impl Abort, alloc: Global, by: By, case: &Computes) -> Result<(), Fail> {
    let items = computing(alloc, case)?;
    let runs = Runs {
        shows: case.name,
        items: &items,
        constants: &[],
        reads: &[],
        writes: case.left,
        left: case.left,
    };
    leaves(rt, alloc, by, [1, 1, 1], &runs)?;
    Ok(())
}

fn shows_atomic(rt: &impl Abort, alloc: Global, by: By, atomic: &Atomic) -> Result<(), Fail> {
    let items = changing(alloc, atomic.first)?;
    let runs = Runs {
        shows: atomic.name,
        items: &items,
        constants: &[],
        reads: &[],
        writes: &OLD,
        left: &atomic.left,
    };
    leaves(rt, alloc, by, [1, 1, 1], &runs)?;
    Ok(())
}

/// What the tree's evaluator and the module's machine make of each instruction.
#[test]
fn instructions_compute(rt: HostRuntime) -> Result<(), Fail> {
    for by in BOTH {
        for case in &COMPUTES {
            shows_instruction(&rt, rt.alloc(), by, case)?;
        }
        for atomic in &ATOMICS {
            shows_atomic(&rt, rt.alloc(), by, atomic)?;
        }
    }
    Ok(())
}

/// Adds the sources of an instruction on two words.
fn push_sources(
    items: &mut Vec<u32>,
    sources: &[Operand],
    x: u32,
    y: u32,
) -> Result<(), AllocError> {
    for source in sources {
        let number = match source {
            Operand::X => x,
            Operand::Y => y,
            Operand::Number(number) => *number,
        };
        push_number(items, number)?;
    }
    Ok(())
}

/// The shader of an instruction on two words.
fn operating(alloc: Global, operation: &Operation, x: u32, y: u32) -> Result<Vec<u32>, AllocError> {
    let mut items = [0x401, 1, 1, 1, 0x202, 1, 0x405, 0, 0, 0].to_vec(alloc)?;
    items.extend_from_slice(operation.front)?;
    push_sources(&mut items, operation.sources, x, y)?;
    items.extend_from_slice(operation.store)?;
    Ok(items)
}

/// Whether the words of a module have an instruction of this opcode.
fn has_opcode(words: &[u32], opcode: u32) -> bool {
    let mut left: u32 = 5;
    for word in words {
        if left == 0 {
            if word % 65_536 == opcode {
                return true;
            }
            left = word / 65_536;
        }
        left = left.saturating_sub(1);
    }
    false
}

/// The module of a shader has an instruction of this opcode.
fn emits(rt: &impl Abort, alloc: Global, items: &[u32], opcode: u32) -> Result<(), Fail> {
    let shader = shader_of(alloc, items)?;
    let module = emit(alloc, &shader)?;
    assert!(rt; has_opcode(module.words(), opcode), "opcode {opcode}");
    Ok(())
}

fn shows_operation(
    rt: &impl Abort,
    alloc: Global,
    operation: &Operation,
    case: &Case,
) -> Result<(), Fail> {
    let Case(x, y, left) = case;
    let items = operating(alloc, operation, *x, *y)?;
    emits(rt, alloc, &items, operation.opcode)?;
    let runs = Runs {
        shows: operation.name,
        items: &items,
        constants: &[],
        reads: &[],
        writes: &[*x, 0],
        left,
    };
    leaves(rt, alloc, By::Module, [1, 1, 1], &runs)?;
    Ok(())
}

/// What the machine makes of a module's instructions.
#[test]
fn computes(rt: HostRuntime) -> Result<(), Fail> {
    for operation in &OPERATIONS {
        for case in operation.cases {
            shows_operation(&rt, rt.alloc(), operation, case)?;
        }
    }
    Ok(())
}

/// What both make of shaders.
#[test]
fn shaders_leave(rt: HostRuntime) -> Result<(), Fail> {
    for by in BOTH {
        for runs in &SHADERS {
            leaves(&rt, rt.alloc(), by, [1, 1, 1], runs)?;
        }
        for runs in &GROUPED {
            leaves(&rt, rt.alloc(), by, [2, 1, 2], runs)?;
        }
    }
    Ok(())
}

/// Words of which so many are the same, by three stretches.
fn stretches(alloc: Global, stretches: [(u32, u32); 3]) -> Result<Vec<u32>, AllocError> {
    let mut words = Vec::new(alloc);
    for (times, word) in stretches {
        for _ in 0..times {
            words.push(word)?;
        }
    }
    Ok(words)
}

/// The numbers below 64.
fn numbers(alloc: Global) -> Result<Vec<u32>, AllocError> {
    let mut numbers = Vec::new(alloc);
    for number in 0..64 {
        numbers.push(number)?;
    }
    Ok(numbers)
}

/// A dispatch of the counter shader: how many groups of its 64 threads it is asked for, how many invocations run, and
/// what each thread's counter is then.
struct Counted {
    groups: [u32; 3],
    invocations: u64,
    count: u32,
}

/// The 256 counters after a dispatch. The threads' inputs are their numbers, and the constant is 250, so that counters 0 to
/// 57 and 250 to 255 are counted.
fn shows_counters(rt: &impl Abort, alloc: Global, by: By, case: &Counted) -> Result<(), Fail> {
    let reads = numbers(alloc)?;
    let writes = stretches(alloc, [(256, 0), (0, 0), (0, 0)])?;
    let left = stretches(alloc, [(58, case.count), (192, 0), (6, case.count)])?;
    let runs = Runs {
        shows: "the counter shader",
        items: &COUNTER,
        constants: &[250, 0, 0, 0],
        reads: &reads,
        writes: &writes,
        left: &left,
    };
    let count = leaves(rt, alloc, by, case.groups, &runs)?;
    assert_eq!(rt; count, case.invocations, "{:?}", case.groups);
    Ok(())
}

static COUNTERS: [Counted; 3] = [
    Counted {
        groups: [1, 3, 1],
        invocations: 192,
        count: 3,
    },
    Counted {
        groups: [1, 1, 3],
        invocations: 192,
        count: 3,
    },
    Counted {
        groups: [0, 1, 1],
        invocations: 0,
        count: 0,
    },
];

/// More groups, or more invocations, than a dispatch may have.
static TOO_MANY: [Counted; 2] = [
    Counted {
        groups: [65_536, 1, 1],
        invocations: 0,
        count: 0,
    },
    Counted {
        groups: [65_535, 5, 1],
        invocations: 0,
        count: 0,
    },
];

/// Many invocations. Tests of the machine run as many as there may be.
static MANY: Counted = Counted {
    groups: [1, 64, 64],
    invocations: 262_144,
    count: 4096,
};

#[test]
fn counters(rt: HostRuntime) -> Result<(), Fail> {
    for by in BOTH {
        for case in &COUNTERS {
            shows_counters(&rt, rt.alloc(), by, case)?;
        }
    }
    for case in &TOO_MANY {
        shows_counters(&rt, rt.alloc(), By::Tree, case)?;
    }
    Ok(())
}

#[test]
fn many_invocations(rt: HostRuntime) -> Result<(), Fail> {
    shows_counters(&rt, rt.alloc(), By::Module, &MANY)
}

/// The first bad word of a module's first words, which are no module.
fn bad_word(alloc: Global, words: &[u32], count: usize) -> Result<u32, Fail> {
    let front = words.get(..count).ok_or("behind the end")?;
    if front.len() > 4096 {
        return Err("too many words".into());
    }
    match read_module(alloc, front) {
        Ok(_) => Err("a module".into()),
        Err(ModuleEnd::Bad(fault)) => Ok(fault.word),
        Err(ModuleEnd::NoMemory) => Err("no memory".into()),
    }
}

/// Each front of the smallest shader's module has a bad word.
#[test]
fn fronts_of_a_module(rt: HostRuntime) -> Result<(), Fail> {
    let shader = shader_of(rt.alloc(), &[0x401, 1, 1, 1])?;
    let module = emit(rt.alloc(), &shader)?;
    let words = module.words();
    assert!(rt; words.len() < 4096);
    for count in 0..words.len() {
        let word = bad_word(rt.alloc(), words, count)?;
        assert!(rt; word as usize <= count, "the first {count}");
    }
    assert_eq!(rt; read_module(rt.alloc(), words)?.words(), words);
    Ok(())
}

/// Nearly as long as a shader may be: 8,000 additions of 1, and a store.
fn long_items(alloc: Global) -> Result<Vec<u32>, AllocError> {
    let mut items = [0x401, 1, 1, 1, 0x202, 1, 0x405, 0, 0, 0].to_vec(alloc)?;
    for _ in 0..8000 {
        items.extend_from_slice(&[0x812, 0x10, 0, 1, 1, 0, 0, 0])?;
    }
    items.extend_from_slice(&[0x10831, 0x100, 1, 0, 0, 0, 0, 0])?;
    Ok(items)
}

#[test]
fn long_shader(rt: HostRuntime) -> Result<(), Fail> {
    let items = long_items(rt.alloc())?;
    let runs = Runs {
        shows: "a long shader",
        items: &items,
        constants: &[],
        reads: &[],
        writes: &[0],
        left: &[8000],
    };
    for by in BOTH {
        leaves(&rt, rt.alloc(), by, [1, 1, 1], &runs)?;
    }
    Ok(())
}
