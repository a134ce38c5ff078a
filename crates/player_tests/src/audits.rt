// Listings that are audited: what is written of each, or its first bad line.
use crate::cases::{Case, expect, refused, replayed};
use player::Status;
use std::test::Fail;

// A clear that a dispatch and a copy read, with one barrier behind the clear.
const COVERED: &str =
    "clear 1 00000001 00000000 00000000 00000000 2 w b512:0-16 call 1\nbarrier all:w all:rw cause 1 2\ndispatch 2 p9 1 1 1 s0 b512:0-16 call 2\ncopy 3 r b512:0-16 w b513:0-16 call 3\nsubmit 1\n";

// The barrier names the dispatch alone.
const UNCOVERED: &str =
    "clear 1 00000001 00000000 00000000 00000000 2 w b512:0-16 call 1\nbarrier all:w compute:rw cause 1 2\ndispatch 2 p9 1 1 1 s0 b512:0-16 call 2\ncopy 3 r b512:0-16 w b513:0-16 call 3\nsubmit 1\n";

// A copy behind a copy, read by the host.
const TWO_COPIES: &str =
    "host-write b512 0 16 call 1\nhost-write b513 0 16 call 2\nhost-write b514 0 16 call 3\ncopy 1 r b514:0-16 w b512:0-16 call 3\nbarrier all:w all:rw cause 1 2\ncopy 2 r b512:0-16 w b513:0-16 call 4\nbarrier all:w host:r cause 2 host\nsubmit 1\nfence 1\nhost-read b513 0 16 call 5\n";

// Two fills between copies.
const FILLS: &str =
    "host-write b512 0 16 call 1\nhost-write b513 0 16 call 2\nhost-write b514 0 16 call 3\nhost-write b515 0 16 call 4\nhost-write b516 0 16 call 5\ncopy 1 r b512:0-16 w b513:0-16 call 8\nbarrier all:w all:rw cause 1 2\ncopy 2 r b513:0-16 w b514:0-16 call 9\nfill 3 00000005 w b512:0-16 call 10\nfill 4 00000006 w b515:0-16 call 11\nbarrier all:w all:rw cause 2 5\ncopy 5 r b514:0-16 w b516:0-16 call 12\nbarrier all:w host:r cause 5 host\nsubmit 1\nfence 1\nhost-read b516 0 16 call 13\n";

// The same with the barrier before the last copy taken out.
const FILLS_OPEN: &str =
    "host-write b512 0 16 call 1\nhost-write b513 0 16 call 2\nhost-write b514 0 16 call 3\nhost-write b515 0 16 call 4\nhost-write b516 0 16 call 5\ncopy 1 r b512:0-16 w b513:0-16 call 8\nbarrier all:w all:rw cause 1 2\ncopy 2 r b513:0-16 w b514:0-16 call 9\nfill 3 00000005 w b512:0-16 call 10\nfill 4 00000006 w b515:0-16 call 11\ncopy 5 r b514:0-16 w b516:0-16 call 12\nbarrier all:w host:r cause 5 host\nsubmit 1\nfence 1\nhost-read b516 0 16 call 13\n";

// Texts behind a listing, or alone, with what is written.
const AUDITS: [(&str, &str, &str); 12] = [
    ("", "", "covered\n"),
    (COVERED, "", "covered\n"),
    (UNCOVERED, "", "uncovered 0 3 b512:0-16\n"),
    (COVERED, "order 0 3 2\n", "covered\nallowed\n"),
    (COVERED, "order 3 0 2\n", "covered\nbroken 0 3\n"),
    (COVERED, "order 0 2\n", "covered\nnot-all 2\n"),
    (
        UNCOVERED,
        "order 0 2 3\n",
        "uncovered 0 3 b512:0-16\nallowed\n",
    ),
    (TWO_COPIES, "", "covered\n"),
    (FILLS, "", "covered\n"),
    (FILLS_OPEN, "", "uncovered 7 10 b514:0-16\n"),
    // Of three pairs of touches that conflict the first by the first act names the bytes.
    (
        "dispatch 0 p1 1 1 1 s0 b1:0-8 u0 b2:4-20 u1 b3:0-4 call 1\ndispatch 1 p1 1 1 1 c0 b3:0-4 s0 b2:8-24 u0 b1:0-4 call 2\n",
        "",
        "uncovered 0 1 b1:0-4\n",
    ),
    // What is read twice is no hazard.
    (
        "copy 7 r b1:0-4 w b2:0-4 call 1\ncopy 9 r b1:0-4 w b2:4-8 call 1\n",
        "order 1 0\n",
        "covered\nallowed\n",
    ),
];

// Texts with their first bad lines.
const BAD: [(&str, &str, u64); 13] = [
    // A number that doesn't rise.
    (
        "clear 1 00000001 00000000 00000000 00000000 2 w b512:0-16 call 1\nbarrier all:w all:rw cause 1 2\ndispatch 2 p9 1 1 1 s0 b512:0-16 call 2\ncopy 3 r b512:0-16 w b513:0-16 call 3\ncopy 2 r b512:0-16 w b513:0-16 call 4\nsubmit 1\n",
        "",
        5,
    ),
    (COVERED, "copy 3 r b512:0-16 w b513:0-16 call 3\n", 6),
    (COVERED, "order\n", 6),
    (COVERED, "order \n", 6),
    (COVERED, "order 0  3 2\n", 6),
    (COVERED, "order 0 3 2 \n", 6),
    (COVERED, "order 0 03 2\n", 6),
    (COVERED, "order 4294967296\n", 6),
    (COVERED, "order 0 3 2", 6),
    (COVERED, "order 0 3 2\nsubmit 2\n", 7),
    (COVERED, "order 0 3 2\norder 0 3 2\n", 7),
    ("vulkan\n", COVERED, 1),
    ("submit 1", "", 1),
];

fn joined(text: &str, more: &str, alloc: std::alloc::Global) -> Result<Vec<u8>, Fail> {
    let mut all = text.as_bytes().to_vec(alloc)?;
    all.extend_from_slice(more.as_bytes())?;
    Ok(all)
}

#[test]
fn reports(rt: HostRuntime) -> Result<(), Fail> {
    let alloc = rt.alloc();
    for (listing, order, output) in &AUDITS {
        let input = joined(listing, order, alloc)?;
        let case = replayed(&input, output.as_bytes());
        expect(
            &rt,
            alloc,
            &Case {
                word: "audit",
                ..case
            },
        )?;
    }
    Ok(())
}

#[test]
fn bad_lines(rt: HostRuntime) -> Result<(), Fail> {
    let alloc = rt.alloc();
    for (listing, order, line) in &BAD {
        let input = joined(listing, order, alloc)?;
        let case = refused(&input, Status::BadText { line: *line });
        expect(
            &rt,
            alloc,
            &Case {
                word: "audit",
                ..case
            },
        )?;
    }
    Ok(())
}
