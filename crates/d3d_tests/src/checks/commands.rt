// Copies, updates, clears and dispatches, and calls of lists.
use super::{Ask, Row};
use call_log::Call;
use dx_types::Refusal;

pub(super) static ROWS: [Row; 24] = [
    (Ask::CopyRegion(1, 60, 2, 60, 4), None),
    (Ask::CopyRegion(9, 0, 2, 0, 4), Some(Refusal::UnknownId)),
    (Ask::CopyRegion(1, 0, 9, 0, 4), Some(Refusal::UnknownId)),
    (Ask::CopyRegion(2, 0, 2, 0, 4), Some(Refusal::BadUsage)),
    (Ask::CopyRegion(3, 0, 1, 0, 4), Some(Refusal::BadUsage)),
    (
        Ask::CopyRegion(1, 0, 1, 32, 4),
        Some(Refusal::SameSubresource),
    ),
    (Ask::CopyRegion(1, 61, 2, 0, 4), Some(Refusal::OutOfRange)),
    (Ask::CopyRegion(1, 0, 2, 61, 4), Some(Refusal::OutOfRange)),
    (
        Ask::CopyRegion(1, u32::MAX, 2, 0, u32::MAX),
        Some(Refusal::OutOfRange),
    ),
    (Ask::Copy(1, 2), None),
    (Ask::Copy(2, 9), Some(Refusal::UnknownId)),
    (Ask::Copy(1, 1), Some(Refusal::SameSubresource)),
    (Ask::Copy(1, 6), Some(Refusal::BadSize)),
    (Ask::Update(1, 60, b"abcd"), None),
    (Ask::Update(1, 61, b"abcd"), Some(Refusal::OutOfRange)),
    (Ask::Update(4, 0, b""), Some(Refusal::BadUsage)),
    (Ask::Update(7, 0, b""), Some(Refusal::UnknownId)),
    (Ask::ClearUav(2), None),
    (Ask::ClearUav(1), Some(Refusal::BadBind)),
    (Ask::ClearUav(3), Some(Refusal::UnknownId)),
    (Ask::DispatchIndirect(1, 2), Some(Refusal::BadBind)),
    (Ask::Other(Call::Flush), None),
    (
        Ask::Other(Call::FinishList { list: 1 }),
        Some(Refusal::WrongContext),
    ),
    (
        Ask::Other(Call::ExecuteList { list: 1, flag: 9 }),
        Some(Refusal::UnknownList),
    ),
];
