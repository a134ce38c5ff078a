ghost use Rattle.std.specs.Prelude.{◌≡◌, ◌+◌, ◌<◌, ◌≤◌, ◌^◌, length};
ghost use Rattle.call_log.specs.Grammar.{head_at, header_fault, end_parts};

use crate::body::{fits_known, layout_of};
use crate::fault::{Head, LogFault, LogKind};
use byteorder::{ByteOrder, LittleEndian};

// `D3L1` as a number.
const MAGIC: u32 = 827_077_444;

/// What stands at place `at`, where `rest` is left.
#[tactic(auto, unfolding(crate::specs::Grammar::head_at))]
pub(crate) fn head_of(at: u64, rest: &[u8]) -> Head
    requires place { at < 2 ^ 62 }
    requires small { length rest.now < 2 ^ 62 }
    ensures { result ≡ head_at at rest.now }
{
    if rest.is_empty() {
        return Head::Broken(LogFault {
            at,
            kind: LogKind::NoEnd,
        });
    }
    if rest.len() < 8 {
        return Head::Broken(LogFault {
            at,
            kind: LogKind::Truncated,
        });
    }
    let kind = LittleEndian::read_u16(rest);
    let context = LittleEndian::read_u16(&rest[2..]);
    let shape = layout_of(kind);
    if !(kind == 0 || shape.is_some()) {
        return Head::Broken(LogFault {
            at,
            kind: LogKind::UnknownKind,
        });
    }
    let len = LittleEndian::read_u32(&rest[4..]) as usize;
    if rest.len() < 8 + len {
        return Head::Broken(LogFault {
            at,
            kind: LogKind::Truncated,
        });
    }
    if kind == 0 {
        return end_of(at, context, len, rest.len());
    }
    if fits_known(shape, &rest[8..8 + len]) {
        Head::Whole
    } else {
        Head::Broken(LogFault {
            at,
            kind: LogKind::BodyLength,
        })
    }
}

// What a record of kind 0 is.
fn end_of(at: u64, context: u16, len: usize, left: usize) -> Head
    requires { at < 2 ^ 62 }
    ensures { result ≡ end_parts at context len left }
{
    if len != 0 || context != 0 {
        return Head::Broken(LogFault {
            at,
            kind: LogKind::BodyLength,
        });
    }
    if left == 8 {
        Head::End
    } else {
        Head::Broken(LogFault {
            at: at + 8,
            kind: LogKind::Trailing,
        })
    }
}

/// The fault of the header, if it has one.
#[tactic(auto, unfolding(crate::specs::Grammar::header_fault))]
pub(crate) fn header_fault(bytes: &[u8]) -> Option<LogFault>
    ensures { result ≡ header_fault bytes.now }
{
    if bytes.len() < 4 || LittleEndian::read_u32(bytes) != MAGIC {
        return Some(LogFault {
            at: 0,
            kind: LogKind::Magic,
        });
    }
    if bytes.len() < 8 {
        return Some(LogFault {
            at: 4,
            kind: LogKind::Truncated,
        });
    }
    if LittleEndian::read_u32(&bytes[4..]) != 1 {
        return Some(LogFault {
            at: 4,
            kind: LogKind::Version,
        });
    }
    None
}
