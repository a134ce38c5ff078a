ghost use Rattle.std.specs.Prelude.{◌≡◌, IfOk};
ghost use Rattle.std.specs.String.{string_bytes};
ghost use Rattle.player.specs.Number.{number_of};
ghost use Rattle.player.specs.StatusText.{text_of, bad_log_text, bad_text_text, draw_text, not_built_text, kind_name};

use call_log::{LogFault, LogKind};
use dx_types::CallNo;
use std::alloc::{AllocError, Global};

/// How a run came out.
#[derive(Clone, Copy, Debug, PartialEq, Eq)]
pub enum Status {
    /// The input was read to its end, and the whole output stands in the sink.
    Done,
    /// The words are no command.
    Usage,
    /// A read of the source failed.
    ReadFault,
    /// A write to the sink failed.
    WriteFault,
    /// Call n of the log is the first draw: draws are not played.
    Unsupported { n: CallNo },
    /// The input is no log: its first fault.
    BadLog { fault: LogFault },
    /// The input is longer than 67,108,864 bytes.
    TooLong,
    /// Memory ran out.
    NoMemory,
    /// The input is no text of a log: its first bad line, from 1.
    BadText { line: u64 },
    /// Call n is the first that is not played yet.
    NotBuilt { n: CallNo, kind: u16 },
}

/// The number with which the program ends.
pub fn status_number(s: &Status) -> u8
    ensures { result ≡ number_of s.now }
{
    match s {
        Status::Done => 0,
        Status::Usage => 1,
        Status::ReadFault => 2,
        Status::WriteFault => 3,
        Status::Unsupported { .. } => 4,
        Status::BadLog { .. } => 5,
        Status::TooLong => 6,
        Status::NoMemory => 7,
        Status::BadText { .. } => 8,
        Status::NotBuilt { .. } => 9,
    }
}

/// What the program says of a status on standard error: nothing of `Done`.
pub fn status_text(alloc: Global, s: &Status) -> Result<String, AllocError>
    ensures { IfOk result (λ text. string_bytes text ≡ text_of s.now) }
{
    match s {
        Status::Done => String::from_str(alloc, ""),
        Status::Usage => String::from_str(alloc, "usage"),
        Status::ReadFault => String::from_str(alloc, "read fault"),
        Status::WriteFault => String::from_str(alloc, "write fault"),
        Status::Unsupported { n } => say_draw(alloc, *n),
        Status::BadLog { fault } => say_bad_log(alloc, fault),
        Status::TooLong => String::from_str(alloc, "longer than 67108864 bytes"),
        Status::NoMemory => String::from_str(alloc, "no memory"),
        Status::BadText { line } => say_bad_text(alloc, *line),
        Status::NotBuilt { n, kind } => say_not_built(alloc, *n, *kind),
    }
}

fn say_draw(alloc: Global, n: CallNo) -> Result<String, AllocError>
    ensures { IfOk result (λ text. string_bytes text ≡ draw_text n) }
{
    format!(in alloc; "call {n} is a draw")
}

fn say_bad_log(alloc: Global, fault: &LogFault) -> Result<String, AllocError>
    ensures { IfOk result (λ text. string_bytes text ≡ bad_log_text fault.now) }
{
    let kind = name_of_kind(fault.kind);
    let at = fault.at;
    format!(in alloc; "{kind} at {at}")
}

fn say_bad_text(alloc: Global, line: u64) -> Result<String, AllocError>
    ensures { IfOk result (λ text. string_bytes text ≡ bad_text_text line) }
{
    format!(in alloc; "line {line}")
}

fn say_not_built(alloc: Global, n: CallNo, kind: u16) -> Result<String, AllocError>
    ensures { IfOk result (λ text. string_bytes text ≡ not_built_text n kind) }
{
    format!(in alloc; "call {n} of kind {kind} is not built")
}

fn name_of_kind(kind: LogKind) -> &'static str
    ensures { result.now ≡ kind_name kind }
{
    match kind {
        LogKind::Magic => "Magic",
        LogKind::Version => "Version",
        LogKind::Truncated => "Truncated",
        LogKind::BodyLength => "BodyLength",
        LogKind::UnknownKind => "UnknownKind",
        LogKind::Trailing => "Trailing",
        LogKind::NoEnd => "NoEnd",
    }
}
