// Which words are a module, and which is the first bad one.

use spirv_model::{ModuleFault, ModuleKind};
use spirv_words::{Builder, Module, ModuleEnd, read_module};
use std::alloc::Global;
use std::process::Abort;
use std::test::Fail;

/// The smallest module: an entry point, two types, and one block that returns.
static MIN: [u32; 29] = [
    0x7230203, 0x10600, 0, 5, 0, 0x20011, 1, 0x3000e, 0, 1, 0x5000f, 5, 3, 0x6e69616d, 0, 0x20013,
    1, 0x30021, 2, 1, 0x50036, 1, 3, 0, 2, 0x200f8, 4, 0x100fd, 0x10038,
];

/// Words in place of those of the smallest module from one place to before another, and the first bad word then.
struct Row {
    shows: &'static str,
    from: usize,
    to: usize,
    put: &'static [u32],
    word: u32,
    kind: ModuleKind,
}

static CHANGED: [Row; 17] = [
    Row {
        shows: "a module of another version, without instructions",
        from: 0,
        to: 29,
        put: &[0x7230203, 0x10500, 0, 1, 0],
        word: 1,
        kind: ModuleKind::Header,
    },
    Row {
        shows: "another magic number",
        from: 0,
        to: 1,
        put: &[0x3022307],
        word: 0,
        kind: ModuleKind::Header,
    },
    Row {
        shows: "another version",
        from: 1,
        to: 2,
        put: &[0x10700],
        word: 1,
        kind: ModuleKind::Header,
    },
    Row {
        shows: "a generator",
        from: 2,
        to: 3,
        put: &[8],
        word: 2,
        kind: ModuleKind::Header,
    },
    Row {
        shows: "a schema",
        from: 4,
        to: 5,
        put: &[1],
        word: 4,
        kind: ModuleKind::Header,
    },
    Row {
        shows: "a word count that is wrong for the opcode",
        from: 10,
        to: 11,
        put: &[0x4000f],
        word: 10,
        kind: ModuleKind::Count,
    },
    Row {
        shows: "an instruction that does nothing",
        from: 5,
        to: 6,
        put: &[0x20000],
        word: 5,
        kind: ModuleKind::Opcode,
    },
    Row {
        shows: "a type before the capability",
        from: 5,
        to: 6,
        put: &[0x20013],
        word: 5,
        kind: ModuleKind::Order,
    },
    Row {
        shows: "an id from the bound on",
        from: 16,
        to: 17,
        put: &[5],
        word: 16,
        kind: ModuleKind::Ident,
    },
    Row {
        shows: "an id made twice",
        from: 18,
        to: 19,
        put: &[1],
        word: 18,
        kind: ModuleKind::Ident,
    },
    Row {
        shows: "an id used before it is made",
        from: 19,
        to: 20,
        put: &[2],
        word: 19,
        kind: ModuleKind::Ident,
    },
    Row {
        shows: "another addressing model",
        from: 8,
        to: 9,
        put: &[1],
        word: 8,
        kind: ModuleKind::Shape,
    },
    Row {
        shows: "another entry point",
        from: 12,
        to: 13,
        put: &[4],
        word: 22,
        kind: ModuleKind::Shape,
    },
    Row {
        shows: "the function's end in an open block",
        from: 27,
        to: 28,
        put: &[0x10038],
        word: 27,
        kind: ModuleKind::Flow,
    },
    Row {
        shows: "an instruction outside of a block",
        from: 28,
        to: 29,
        put: &[0x100fd],
        word: 28,
        kind: ModuleKind::Flow,
    },
    Row {
        shows: "a block that ends with a branch to no label",
        from: 27,
        to: 29,
        put: &[0x200f9, 0, 0x10038],
        word: 28,
        kind: ModuleKind::Flow,
    },
    Row {
        shows: "a decoration behind the entry point that names no id",
        from: 15,
        to: 15,
        put: &[0x30047, 0, 2],
        word: 16,
        kind: ModuleKind::Ident,
    },
];

/// Where the smallest module's instructions begin.
static FIRST_WORDS: [u32; 9] = [5, 7, 10, 15, 17, 20, 25, 27, 28];

/// What the smallest module is pushed as.
static INSTRUCTIONS: [(u16, &[u32]); 9] = [
    (17, &[1]),
    (14, &[0, 1]),
    (15, &[5, 3, 0x6e69616d, 0]),
    (19, &[1]),
    (33, &[2, 1]),
    (54, &[1, 3, 0, 2]),
    (248, &[4]),
    (253, &[]),
    (56, &[]),
];

/// The module of words, or how reading ended.
fn read(alloc: Global, words: &[u32]) -> Result<Module, ModuleEnd> {
    if words.len() > 100 {
        return Err(ModuleEnd::NoMemory);
    }
    read_module(alloc, words)
}

/// The bad word of these words, None where they are a module.
fn bad_word(alloc: Global, words: &[u32]) -> Result<Option<ModuleFault>, Fail> {
    match read(alloc, words) {
        Ok(_) => Ok(None),
        Err(ModuleEnd::Bad(fault)) => Ok(Some(fault)),
        Err(ModuleEnd::NoMemory) => Err("no memory, or too many words".into()),
    }
}

/// The smallest module with other words in place of some.
fn changed(alloc: Global, from: usize, to: usize, put: &[u32]) -> Result<Vec<u32>, Fail> {
    let mut words = MIN.get(..from).ok_or("behind the end")?.to_vec(alloc)?;
    words.extend_from_slice(put)?;
    words.extend_from_slice(MIN.get(to..).ok_or("behind the end")?)?;
    Ok(words)
}

fn shows_fault(rt: &impl Abort, alloc: Global, row: &Row) -> Result<(), Fail> {
    let words = changed(alloc, row.from, row.to, row.put)?;
    let expected = ModuleFault {
        word: row.word,
        kind: row.kind,
    };
    assert_eq!(rt; bad_word(alloc, &words)?, Some(expected), "{}", row.shows);
    Ok(())
}

/// An instruction whose first word is 0.
fn shows_no_count(rt: &impl Abort, alloc: Global, word: u32) -> Result<(), Fail> {
    let at = word as usize;
    let words = changed(alloc, at, at + 1, &[0])?;
    let expected = ModuleFault {
        word,
        kind: ModuleKind::Count,
    };
    assert_eq!(rt; bad_word(alloc, &words)?, Some(expected), "at {word}");
    Ok(())
}

// With what is never made: the table's last two rows.
#[test]
fn finds_the_first_bad_word(rt: HostRuntime) -> Result<(), Fail> {
    assert_eq!(rt; bad_word(rt.alloc(), &MIN)?, None);
    for row in &CHANGED {
        shows_fault(&rt, rt.alloc(), row)?;
    }
    Ok(())
}

#[test]
fn refuses_what_is_cut_short(rt: HostRuntime) -> Result<(), Fail> {
    for count in 0..MIN.len() {
        let front = MIN.get(..count).ok_or("behind the end")?;
        assert!(rt; bad_word(rt.alloc(), front)?.is_some(), "the first {count}");
    }
    for word in FIRST_WORDS {
        shows_no_count(&rt, rt.alloc(), word)?;
    }
    Ok(())
}

fn push(builder: &mut Builder, opcode: u16, operands: &[u32]) -> Result<(), Fail> {
    if operands.len() > 100 {
        return Err("too many operands".into());
    }
    builder.push(opcode, operands)?;
    Ok(())
}

fn finish(builder: Builder, bound: u32) -> Result<Module, ModuleEnd> {
    if builder.len() > 100 {
        return Err(ModuleEnd::NoMemory);
    }
    builder.finish(bound)
}

#[test]
fn builds_modules(rt: HostRuntime) -> Result<(), Fail> {
    let mut builder = Builder::new(rt.alloc());
    for (opcode, operands) in &INSTRUCTIONS {
        push(&mut builder, *opcode, operands)?;
    }
    assert_eq!(rt; builder.len(), 24);
    let module = finish(builder, 5)?;
    assert_eq!(rt; module.words(), MIN.as_slice());
    Ok(())
}

/// The header alone is no module.
#[test]
fn builds_no_empty_modules(rt: HostRuntime) -> Result<(), Fail> {
    let expected = ModuleEnd::Bad(ModuleFault {
        word: 4,
        kind: ModuleKind::Flow,
    });
    match finish(Builder::new(rt.alloc()), 1) {
        Ok(_) => Err("no instruction".into()),
        Err(end) => {
            assert_eq!(rt; end, expected);
            Ok(())
        }
    }
}
