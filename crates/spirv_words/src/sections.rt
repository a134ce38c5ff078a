// The sections of a module, in their order.

ghost use Rattle.std.specs.Prelude.{◌≡◌};
ghost use Rattle.spirv_model.specs.Sections.{section, follows, is_body, is_function_end};
ghost use Rattle.spirv_model.specs.View.{shown};

use spirv_model::{Op, Section};

/// The section of an instruction, inside of the function or outside.
pub fn section_of(inside: bool, op: Op<'_>) -> Section
    ensures { result ≡ section inside (shown op.entry) }
{
    match op {
        Op::Capability { .. } => Section::Capabilities,
        Op::MemoryModel { .. } => Section::Model,
        Op::EntryPoint { .. } => Section::Entry,
        Op::ExecutionMode { .. } => Section::Modes,
        Op::Decorate { .. } | Op::MemberDecorate { .. } => Section::Decorations,
        Op::TypeVoid { .. }
        | Op::TypeBool { .. }
        | Op::TypeInt { .. }
        | Op::TypeVector { .. }
        | Op::TypeRuntimeArray { .. }
        | Op::TypeStruct { .. }
        | Op::TypePointer { .. }
        | Op::TypeFunction { .. }
        | Op::Constant { .. } => Section::Types,
        Op::Variable { .. } => {
            if inside {
                Section::Body
            } else {
                Section::Types
            }
        }
        _ => Section::Body,
    }
}

/// Whether a section may come after another one.
pub fn may_follow(earlier: Section, later: Section) -> bool
    ensures { result ≡ follows earlier later }
{
    match earlier {
        Section::Capabilities => matches!(later, Section::Capabilities | Section::Model),
        Section::Model => matches!(later, Section::Entry),
        Section::Entry => !matches!(
            later,
            Section::Capabilities | Section::Model | Section::Entry
        ),
        Section::Modes | Section::Decorations | Section::Types | Section::Body => earlier as u8
            <= later as u8,
    }
}
