ghost use Rattle.std.specs.Prelude.{◌≡◌, IfOk};
ghost use Rattle.std.specs.String.{string_bytes};
ghost use Rattle.dx_types.specs.Line.{line, bytes_line, value_line, still_line, refused_line, end_line};

use crate::{ByteList, CallNo, Refusal};
use std::alloc::{AllocError, Global};

/// What a run says of call `n`, and at its end.
#[derive(Drop)]
pub enum Reply {
    /// The bytes that a readback names.
    Bytes {
        n: CallNo,
        bytes: ByteList,
    },
    /// The value of a query.
    Value {
        n: CallNo,
        value: u64,
    },
    /// A call that doesn't wait found its last use, call `used`, unfinished; calls up to `done` were finished.
    Still {
        n: CallNo,
        used: CallNo,
        done: CallNo,
    },
    /// The call is refused, and changed nothing.
    Refused {
        n: CallNo,
        why: Refusal,
    },
    /// The run is complete, over so many calls.
    Finished {
        calls: CallNo,
    },
}

/// The line of a reply, with its line feed.
pub fn reply_line(alloc: Global, r: &Reply) -> Result<String, AllocError>
    ensures { IfOk result (λ text. string_bytes text ≡ line r.now) }
{
    match r {
        Reply::Bytes { n, bytes } => show_bytes(alloc, *n, bytes.as_slice()),
        Reply::Value { n, value } => show_value(alloc, *n, *value),
        Reply::Still { n, used, done } => show_still(alloc, *n, *used, *done),
        Reply::Refused { n, why } => show_refused(alloc, *n, why.name()),
        Reply::Finished { calls } => show_end(alloc, *calls),
    }
}

fn show_bytes(alloc: Global, n: CallNo, bytes: &[u8]) -> Result<String, AllocError>
    ensures { IfOk result (λ text. string_bytes text ≡ bytes_line n bytes.now) }
{
    let hex = hex::encode(alloc, bytes)?;
    format!(in alloc; "{n} bytes {hex}\n")
}

fn show_value(alloc: Global, n: CallNo, value: u64) -> Result<String, AllocError>
    ensures { IfOk result (λ text. string_bytes text ≡ value_line n value) }
{
    format!(in alloc; "{n} query {value}\n")
}

fn show_still(alloc: Global, n: CallNo, used: CallNo, done: CallNo) -> Result<String, AllocError>
    ensures { IfOk result (λ text. string_bytes text ≡ still_line n used done) }
{
    format!(in alloc; "{n} still {used} {done}\n")
}

fn show_refused(alloc: Global, n: CallNo, name: &str) -> Result<String, AllocError>
    ensures { IfOk result (λ text. string_bytes text ≡ refused_line n name.now) }
{
    format!(in alloc; "{n} refused {name}\n")
}

fn show_end(alloc: Global, calls: CallNo) -> Result<String, AllocError>
    ensures { IfOk result (λ text. string_bytes text ≡ end_line calls) }
{
    format!(in alloc; "end {calls}\n")
}
