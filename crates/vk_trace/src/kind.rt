//! The kinds of lines, by their first words.

ghost use Rattle.std.specs.Prelude.{◌≡◌, MatchOption, Some, None};
ghost use Rattle.vk_trace.specs.declared.kind.WorkKind.{WorkKind};
ghost use Rattle.vk_trace.specs.declared.kind.LineKind.{LineKind};
ghost use Rattle.vk_trace.specs.Reading.{line_kind_name, work_kind_name};

use crate::words::is;

/// What a command does.
#[derive(Clone, Copy, Debug)]
pub(crate) enum WorkKind {
    Copy,
    Fill,
    Clear,
    Dispatch,
}

/// What another line says.
#[derive(Clone, Copy, Debug)]
pub(crate) enum LineKind {
    HostWrite,
    Pipeline,
    Barrier,
    Submit,
    Fence,
    HostRead,
}

/// The kind of work of this name.
pub(crate) fn work_kind(word: &[u8]) -> Option<WorkKind>
    ensures { MatchOption result ((k : WorkKind) → word.now ≡ work_kind_name k → ⊥) (λ k. word.now ≡ work_kind_name k) }
{
    if is(word, b"copy") {
        Some(WorkKind::Copy)
    } else if is(word, b"fill") {
        Some(WorkKind::Fill)
    } else if is(word, b"clear") {
        Some(WorkKind::Clear)
    } else if is(word, b"dispatch") {
        Some(WorkKind::Dispatch)
    } else {
        None
    }
}

/// The kind of line of this name.
pub(crate) fn line_kind(word: &[u8]) -> Option<LineKind>
    ensures { MatchOption result ((k : LineKind) → word.now ≡ line_kind_name k → ⊥) (λ k. word.now ≡ line_kind_name k) }
{
    if is(word, b"host-write") {
        Some(LineKind::HostWrite)
    } else if is(word, b"pipeline") {
        Some(LineKind::Pipeline)
    } else if is(word, b"barrier") {
        Some(LineKind::Barrier)
    } else if is(word, b"submit") {
        Some(LineKind::Submit)
    } else if is(word, b"fence") {
        Some(LineKind::Fence)
    } else if is(word, b"host-read") {
        Some(LineKind::HostRead)
    } else {
        None
    }
}
