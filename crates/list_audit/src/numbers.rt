//! Whether command numbers rise.

ghost use Rattle.std.specs.Prelude.{◌≡◌, ◌<◌, [], ◌∷◌};
ghost use Rattle.std.specs.Bool.{MatchBool};
ghost use Rattle.list_audit.specs.AuditText.{numbers, Rise};
ghost use Rattle.list_audit.specs.Numbers.{least_of, least_after};

use vk_types::VkOp;

/// Whether an operation may stand behind others: it is no command, or its number is greater than the last one.
pub(crate) fn may_follow(last: Option<u64>, op: &VkOp) -> bool
    ensures { MatchBool result (Rise (least_of last) (numbers (op.now ∷ []))) (Rise (least_of last) (numbers (op.now ∷ [])) → ⊥) }
{
    match (last, op) {
        (Some(last), VkOp::Command(command)) => last < command.number,
        _ => true,
    }
}

/// The last command number, with this operation.
pub(crate) fn last_with(last: Option<u64>, op: &VkOp) -> Option<u64>
    ensures { least_of result ≡ least_after (least_of last) (numbers (op.now ∷ [])) }
{
    match op {
        VkOp::Command(command) => Some(command.number),
        _ => last,
    }
}
