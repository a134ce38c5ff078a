ghost use Rattle.std.specs.Prelude.{◌≡◌};
ghost use Rattle.list_audit.specs.declared.audit_end.AuditEnd.TheVariants.{NoMemory};

use std::alloc::{AllocError, AllocFailed};
use thiserror::Error;
use vk_types::VkOp;

/// Why a text has no report: its first bad line, from 1, or want of memory.
#[derive(Debug, Drop, Error)]
pub enum AuditEnd {
    #[error("line {line} is no line of a listing or its order")]
    Bad { line: u64 },
    #[error("out of memory")]
    NoMemory,
}

impl From<AllocError> for AuditEnd {
    ghost from_gives = { λ _ e. e ≡ NoMemory };

    fn from(_: AllocError) -> AuditEnd {
        AuditEnd::NoMemory
    }
}

impl From<AllocFailed<VkOp>> for AuditEnd {
    ghost from_gives = { λ _ e. e ≡ NoMemory };

    fn from(_: AllocFailed<VkOp>) -> AuditEnd {
        AuditEnd::NoMemory
    }
}
