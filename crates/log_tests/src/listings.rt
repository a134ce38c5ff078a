// Texts of listings: each listing has one, and what is no text is refused with its first bad line.
use dx_types::Range;
use std::alloc::Global;
use std::process::Abort;
use std::test::Fail;
use vk_trace::{TraceEnd, print_ops, read_ops};
use vk_types::VkOp;

// Listings that are read, and printed as they were.
const LISTINGS: [&str; 10] = [
    "",
    // A copy behind a copy, and a read by the host.
    "host-write b512 0 16 call 1\nhost-write b513 0 16 call 2\nhost-write b514 0 16 call 3\ncopy 1 r b514:0-16 w b512:0-16 call 3\nbarrier transfer:w all:rw cause 1 2\ncopy 2 r b512:0-16 w b513:0-16 call 4\nbarrier all:w host:r cause 2 host\nsubmit 1\nfence 1\nhost-read b513 0 16 call 5\n",
    // Fills between copies.
    "host-write b512 0 16 call 1\nhost-write b513 0 16 call 2\nhost-write b514 0 16 call 3\nhost-write b515 0 16 call 4\nhost-write b516 0 16 call 5\ncopy 1 r b512:0-16 w b513:0-16 call 8\nbarrier transfer:w all:rw cause 1 2\ncopy 2 r b513:0-16 w b514:0-16 call 9\nfill 3 00000005 w b512:0-16 call 10\nfill 4 00000006 w b515:0-16 call 11\nbarrier transfer:w all:rw cause 2 5\ncopy 5 r b514:0-16 w b516:0-16 call 12\nbarrier all:w host:r cause 5 host\nsubmit 1\nfence 1\nhost-read b516 0 16 call 13\n",
    // A clear that a dispatch and a copy read.
    "clear 1 00000001 00000000 00000000 00000000 2 w b512:0-16 call 1\nbarrier all:w all:rw cause 1 2\ndispatch 2 p9 1 1 1 s0 b512:0-16 call 2\ncopy 3 r b512:0-16 w b513:0-16 call 3\nsubmit 1\n",
    // Sources that name the stages that were used, and whether they wrote.
    "barrier compute:w all:rw cause 1 2\nbarrier compute:w,transfer:w all:rw cause 1 3\nbarrier compute:- all:rw cause 1 2\n",
    // Sources with all four accesses.
    "barrier all:rw all:rw cause 1 2\nbarrier all:r all:rw cause 1 2\nbarrier compute:r all:rw cause 1 2\nbarrier compute:-,transfer:rw all:rw cause 1 2\nbarrier indirect:r,host:rw host:- cause 3 host\n",
    // Masks of every stage and access.
    "barrier indirect:-,compute:w,transfer:w,host:w indirect:r,compute:r,transfer:r,host:r cause 1 host\nbarrier host:- indirect:r,compute:r cause 1 2\nbarrier all:- all:r cause 1 2\nbarrier indirect:w all:w cause 1 2\nbarrier indirect:-,compute:w,transfer:w indirect:rw,compute:rw,transfer:w cause 1 2\nbarrier transfer:- all:- cause 1 2\n",
    // Slots of each sort, counts that lie in memory, and conditions.
    "pipeline 7\ndispatch 1 p7 0 65535 4294967295 c0 b1:0-16 c13 b2:4-8 s0 b1:0-16 s255 b3:0-4 u0 b4:0-4 u7 b4:8-12 if b5:4-8 0 call 8\ndispatch 2 p7 at b6:12-24 call 9\ndispatch 3 p7 at b6:12-24 u1 b4:0-4 if b5:0-4 4294967295 call 9\ndispatch 4 p7 1 2 3 call 9\ncopy 5 r b1:3-4 w b2:7-8 if b5:0-4 1 call 10\nfill 6 deadbeef w b2:0-4 if b5:0-4 1 call 11\nclear 7 00000000 ffffffff 0123abcd 00000009 4 w b2:0-32 if b5:0-4 1 call 12\n",
    // Numbers at their ends.
    "host-write b4294967295 0 18446744073709551615 call 0\npipeline 4294967295\nbarrier transfer:w all:rw cause 0 18446744073709551615\ncopy 18446744073709551615 r b0:18446744073709551614-18446744073709551615 w b0:0-1 call 4294967295\nsubmit 18446744073709551615\nfence 0\nhost-read b0 1 2 call 4294967295\n",
    "submit 0\n",
];

// Texts, by their first bad line.
const BAD_FIRST_LINE: [&str; 61] = [
    "submit 1",
    "\n",
    "submit 18446744073709551616\n",
    "pipeline 4294967296\n",
    "pipeline 00\n",
    "host-write b1 4 4 call 1\n",
    "host-write b1 8 4 call 1\n",
    "host-write 1 0 4 call 1\n",
    "host-write b01 0 4 call 1\n",
    "host-write b4294967296 0 4 call 1\n",
    "host-write b1 0 18446744073709551616 call 1\n",
    "host-write b1 0 4 1\n",
    "host-read b1 4 4 call 1\n",
    "host-read b1:0-4 call 1\n",
    "copy 1 r b1:0-4 w b2:0-8 call 1\n",
    "copy 1 r b1:4-4 w b2:4-4 call 1\n",
    "copy 1 r b1:8-4 w b2:8-4 call 1\n",
    "copy 1 r b1:0-4 w b2:18446744073709551612-18446744073709551616 call 1\n",
    "copy 1 w b1:0-4 r b2:0-4 call 1\n",
    "copy 1 r b1:00-4 w b2:0-4 call 1\n",
    "copy 1 r b1-0:4 w b2:0-4 call 1\n",
    "copy 1 r b1:0-4 w b2:0-4\n",
    "copy 1 r b1:0-4 w b2:0-4 if b3:0-8 1 call 1\n",
    "copy 1 r b1:0-4 w b2:0-4 if b3:0-4 call 1\n",
    "copy 1 r b1:0-4 w b2:0-4 if b3:0-4 4294967296 call 1\n",
    "copy 1 r b1:0-4 w b2:0-4 call 1 if b3:0-4 1\n",
    "copy 1 r b1:0-4 w b2:0-4 call 4294967296\n",
    "copy 18446744073709551616 r b1:0-4 w b2:0-4 call 1\n",
    "fill 1 5 w b1:0-4 call 1\n",
    "fill 1 0000000A w b1:0-4 call 1\n",
    "fill 1 0000000005 w b1:0-4 call 1\n",
    "fill 1 00000005 w b1:0-6 call 1\n",
    "clear 1 00000001 00000000 00000000 2 w b1:0-8 call 1\n",
    "clear 1 00000001 00000000 00000000 00000000 1 w b1:0-8 call 1\n",
    "clear 1 00000001 00000000 00000000 00000000 2 w b1:0-12 call 1\n",
    "clear 1 00000001 00000000 00000000 00000000 4 w b1:0-8 call 1\n",
    "dispatch 1 9 1 1 1 call 1\n",
    "dispatch 1 p4294967296 1 1 1 call 1\n",
    "dispatch 1 p9 1 1 call 1\n",
    "dispatch 1 p9 1 1 4294967296 call 1\n",
    "dispatch 1 p9 at b1:0-16 call 1\n",
    "dispatch 1 p9 1 1 1 s0 b1:0-6 call 1\n",
    "dispatch 1 p9 1 1 1 s256 b1:0-4 call 1\n",
    "dispatch 1 p9 1 1 1 s1 b1:0-4 s0 b1:0-4 call 1\n",
    "dispatch 1 p9 1 1 1 s1 b1:0-4 s1 b1:0-4 call 1\n",
    "dispatch 1 p9 1 1 1 s1 b1:0-4 c1 b1:0-4 call 1\n",
    "dispatch 1 p9 1 1 1 u1 b1:0-4 s2 b1:0-4 call 1\n",
    "dispatch 1 p9 1 1 1 t1 b1:0-4 call 1\n",
    "dispatch 1 p9 1 1 1 s01 b1:0-4 call 1\n",
    "barrier all:w all:rw cause 1\n",
    "barrier all:w all:rw cause 1 18446744073709551616\n",
    "barrier all:w all:rw cause 1 hosts\n",
    "barrier all:w all:wr cause 1 2\n",
    "barrier all:wr all:rw cause 1 2\n",
    "barrier all:w all:rw,host:r cause 1 2\n",
    "barrier all:w indirect:r,compute:r,transfer:r cause 1 2\n",
    "barrier all:w compute:r,indirect:r cause 1 2\n",
    "barrier all:w compute:r,compute:r cause 1 2\n",
    "barrier all:w compute:r, cause 1 2\n",
    "barrier all:w  cause 1 2\n",
    "barrier all:w compute cause 1 2\n",
];

const BAD_SECOND_LINE: [&str; 14] = [
    "submit 1\n\n",
    "submit 1\nsubmit 2",
    "submit 1\nfence 1\r\n",
    "submit 1\n submit 2\n",
    "submit 1\nsubmit  2\n",
    "submit 1\nsubmit 2 \n",
    "submit 1\nsubmit\t2\n",
    "submit 1\nSubmit 2\n",
    "submit 1\nsubmit\n",
    "submit 1\nsubmit 2 3\n",
    "submit 1\nvulkan\n",
    "submit 1\nsubmit 01\n",
    "submit 1\nsubmit +1\n",
    "submit 1\nsubmit -\n",
];

fn printed(alloc: Global, text: &str) -> Result<String, Fail> {
    let ops = read_ops(alloc, text.as_bytes())?;
    Ok(print_ops(alloc, &ops)?)
}

#[test]
fn both_ways(rt: HostRuntime) -> Result<(), Fail> {
    for text in &LISTINGS {
        assert_eq!(rt; printed(rt.alloc(), text)?.as_str(), *text);
    }
    Ok(())
}

// The number of the first bad line, if there is one.
fn bad_line(alloc: Global, text: &str) -> Option<u64> {
    match read_ops(alloc, text.as_bytes()) {
        Err(TraceEnd::Bad { line }) => Some(line),
        _ => None,
    }
}

fn are_bad(rt: &impl Abort, alloc: Global, texts: &[&str], line: u64) {
    for text in texts {
        assert_eq!(rt; bad_line(alloc, text), Some(line), "at {text}");
    }
}

#[test]
fn bad_lines(rt: HostRuntime) {
    are_bad(&rt, rt.alloc(), &BAD_FIRST_LINE, 1);
    are_bad(&rt, rt.alloc(), &BAD_SECOND_LINE, 2);
}

// Whether these are the operations of the text below.
fn are_read(ops: &[VkOp]) -> bool {
    let [
        VkOp::HostWrite { range, call: 3 },
        VkOp::Barrier(barrier),
        VkOp::Fence(9),
    ] = ops
    else {
        return false;
    };
    let bytes = Range {
        block: 512,
        from: 4,
        to: 16,
    };
    *range == bytes
        && barrier.first == 4
        && barrier.second.is_none()
        && barrier.source.compute.is_some()
        && barrier.source.transfer.is_none()
}

// What an operation of each sort is read as.
#[test]
fn operations(rt: HostRuntime) -> Result<(), Fail> {
    let text = "host-write b512 4 16 call 3\nbarrier compute:- host:rw cause 4 host\nfence 9\n";
    let ops = read_ops(rt.alloc(), text.as_bytes())?;
    assert!(rt; are_read(&ops));
    Ok(())
}
