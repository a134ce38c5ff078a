// The first bad word of a shader.

use crate::building::shader_bytes;
use crate::rules::{GOOD, RULES, Rule};
use ShaderKind::{Length, Nesting, TooLong};
use shader_tokens::{ShaderEnd, ShaderFault, ShaderKind, decode};
use std::alloc::{AllocError, Global};
use std::process::Abort;
use std::test::Fail;

/// The bad word, None where there is none.
fn bad_word(alloc: Global, bytes: &[u8]) -> Result<Option<ShaderFault>, ShaderEnd> {
    match decode(alloc, bytes) {
        Ok(_) => Ok(None),
        Err(ShaderEnd::Bad(fault)) => Ok(Some(fault)),
        Err(ShaderEnd::NoMemory) => Err(ShaderEnd::NoMemory),
    }
}

/// The items break the rule.
fn breaks(rt: &impl Abort, alloc: Global, rule: &Rule, items: &[u32]) -> Result<(), Fail> {
    let bytes = shader_bytes(alloc, items)?;
    let expected = ShaderFault {
        word: rule.word,
        kind: rule.kind,
    };
    assert_eq!(rt;
        bad_word(alloc, &bytes)?,
        Some(expected),
        "{}: {items:?}",
        rule.shows
    );
    Ok(())
}

fn is_good(rt: &impl Abort, alloc: Global, items: &[u32]) -> Result<(), Fail> {
    let bytes = shader_bytes(alloc, items)?;
    assert_eq!(rt; bad_word(alloc, &bytes)?, None, "{items:?}");
    Ok(())
}

#[test]
fn names_the_first_bad_word(rt: HostRuntime) -> Result<(), Fail> {
    for rule in &RULES {
        for items in rule.shaders {
            breaks(&rt, rt.alloc(), rule, items)?;
        }
    }
    for items in &GOOD {
        is_good(&rt, rt.alloc(), items)?;
    }
    Ok(())
}

/// The smallest shader.
static SMALLEST: &[u8] = b"\x01\0\0\0\x06\0\0\0\x01\x04\0\0\x01\0\0\0\x01\0\0\0\x01\0\0\0";

/// From which byte to before which byte the smallest shader is left, and the word whose length is wrong then.
static PIECES: [(usize, usize, u32); 5] = [
    (0, 0, 0),
    (0, 4, 0),
    (0, 23, 0),
    (4, 24, 0),
    (0, 20, 1),
];

/// How many bytes of 0 there are, and what is wrong with word 0.
static ZEROS: [(usize, ShaderKind); 2] = [(262_147, Length), (262_148, TooLong)];

fn zeros(alloc: Global, count: usize) -> Result<Vec<u8>, AllocError> {
    vec![in alloc; 0; count]
}

/// Word `word` of these bytes is bad.
fn is_bad(
    rt: &impl Abort,
    alloc: Global,
    bytes: &[u8],
    word: u32,
    kind: ShaderKind,
) -> Result<(), Fail> {
    let expected = ShaderFault { word, kind };
    assert_eq!(rt;
        bad_word(alloc, bytes)?,
        Some(expected),
        "{} bytes",
        bytes.len()
    );
    Ok(())
}

#[test]
fn names_what_is_wrong_with_the_header(rt: HostRuntime) -> Result<(), Fail> {
    for (from, to, word) in PIECES {
        let bytes = SMALLEST.get(from..to).ok_or("behind the end")?;
        is_bad(&rt, rt.alloc(), bytes, word, Length)?;
    }
    for (count, kind) in ZEROS {
        let bytes = zeros(rt.alloc(), count)?;
        is_bad(&rt, rt.alloc(), &bytes, 0, kind)?;
    }
    Ok(())
}

// What the header's test says of the whole: the group, and that there are no temporaries, declarations and nodes.
#[test]
fn decodes_the_smallest_shader(rt: HostRuntime) -> Result<(), Fail> {
    let shader = decode(rt.alloc(), SMALLEST)?;
    let counts = [
        shader.temps() as usize,
        shader.declared().len(),
        shader.body().len(),
    ];
    assert_eq!(rt; shader.group(), [1, 1, 1]);
    assert_eq!(rt; counts, [0, 0, 0]);
    Ok(())
}

/// 65 loops, one in the other.
static LOOPS: [u32; 69] = [
    0x401, 1, 1, 1, 0x154, 0x154, 0x154, 0x154, 0x154, 0x154, 0x154, 0x154, 0x154, 0x154, 0x154,
    0x154, 0x154, 0x154, 0x154, 0x154, 0x154, 0x154, 0x154, 0x154, 0x154, 0x154, 0x154, 0x154,
    0x154, 0x154, 0x154, 0x154, 0x154, 0x154, 0x154, 0x154, 0x154, 0x154, 0x154, 0x154, 0x154,
    0x154, 0x154, 0x154, 0x154, 0x154, 0x154, 0x154, 0x154, 0x154, 0x154, 0x154, 0x154, 0x154,
    0x154, 0x154, 0x154, 0x154, 0x154, 0x154, 0x154, 0x154, 0x154, 0x154, 0x154, 0x154, 0x154,
    0x154, 0x154,
];

/// The items of so many loops, by their number with the group's declaration, and the bad word.
static DEEP: [(usize, u32); 2] = [(68, 1), (69, 70)];

#[test]
fn blocks_are_at_most_64_deep(rt: HostRuntime) -> Result<(), Fail> {
    for (count, word) in DEEP {
        let items = LOOPS.get(..count).ok_or("behind the end")?;
        let bytes = shader_bytes(rt.alloc(), items)?;
        is_bad(&rt, rt.alloc(), &bytes, word, Nesting)?;
    }
    Ok(())
}
