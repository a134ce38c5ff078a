// Creations of shaders, what is set, and dispatches.
use super::{Ask, Row};
use dx_types::Refusal;

// The token words of a shader of 16 by 16 by 1 threads, and words that are none.
pub(super) const GOOD: &[u8] = &[
    1, 0, 0, 0, 6, 0, 0, 0, 1, 4, 0, 0, 16, 0, 0, 0, 16, 0, 0, 0, 1, 0, 0, 0,
];

const BAD: &[u8] = &[1, 0, 0, 0, 2, 0, 0, 0];

pub(super) static CREATIONS: [Row; 8] = [
    (Ask::CreateShader(2, GOOD), None),
    (Ask::CreateShader(65_534, GOOD), None),
    (Ask::CreateShader(0, BAD), Some(Refusal::OutOfRange)),
    (Ask::CreateShader(65_536, BAD), Some(Refusal::OutOfRange)),
    (Ask::CreateShader(1, BAD), Some(Refusal::IdInUse)),
    (Ask::CreateShader(65_535, GOOD), Some(Refusal::IdInUse)),
    (Ask::CreateShader(2, BAD), Some(Refusal::BadShader)),
    (Ask::CreateShader(2, &[]), Some(Refusal::BadShader)),
];

pub(super) static ONCE_SET: [Row; 9] = [
    (Ask::SetShader(0), None),
    (Ask::SetShader(1), None),
    (Ask::SetShader(65_535), None),
    (Ask::SetShader(2), Some(Refusal::UnknownId)),
    (Ask::SetShader(65_536), Some(Refusal::UnknownId)),
    (Ask::Destroy(3, 1), Some(Refusal::IdInUse)),
    (Ask::Destroy(3, 65_535), None),
    (Ask::Destroy(3, 0), Some(Refusal::UnknownId)),
    (Ask::Destroy(3, 2), Some(Refusal::UnknownId)),
];

pub(super) static ONCE_CLEARED: [Row; 1] = [(Ask::Destroy(3, 1), None)];

// No shader is set.
pub(super) static WITHOUT: [Row; 16] = [
    (Ask::Dispatch(1, 1, 1), Some(Refusal::BadShader)),
    (Ask::Dispatch(65_536, 1, 1), Some(Refusal::BadShader)),
    (Ask::Dispatch(65_535, 1, 1), Some(Refusal::BadShader)),
    (Ask::Dispatch(256, 256, 1), Some(Refusal::BadShader)),
    (Ask::Dispatch(1, 256, 256), Some(Refusal::BadShader)),
    (Ask::Dispatch(257, 1, 256), Some(Refusal::BadShader)),
    (Ask::Dispatch(65_535, 65_535, 0), Some(Refusal::BadShader)),
    (Ask::Dispatch(65_536, 0, 1), Some(Refusal::BadShader)),
    (Ask::Dispatch(0, 65_536, 1), Some(Refusal::BadShader)),
    (Ask::Dispatch(0, 0, u32::MAX), Some(Refusal::BadShader)),
    (
        Ask::Dispatch(65_535, 65_535, 65_535),
        Some(Refusal::BadShader),
    ),
    (Ask::DispatchIndirect(7, 2), Some(Refusal::UnknownId)),
    (Ask::DispatchIndirect(6, 2), Some(Refusal::OutOfRange)),
    (Ask::DispatchIndirect(6, 16), Some(Refusal::OutOfRange)),
    (Ask::DispatchIndirect(6, 12), Some(Refusal::BadShader)),
    (Ask::DispatchIndirect(6, 0), Some(Refusal::BadShader)),
];

// A shader of 256 threads a group is set.
pub(super) static WITH: [Row; 16] = [
    (Ask::Dispatch(1, 1, 1), None),
    (Ask::Dispatch(65_536, 1, 1), Some(Refusal::TooManyGroups)),
    (Ask::Dispatch(65_535, 1, 1), None),
    (Ask::Dispatch(256, 256, 1), None),
    (Ask::Dispatch(1, 256, 256), None),
    (Ask::Dispatch(257, 1, 256), Some(Refusal::TooManyGroups)),
    (Ask::Dispatch(65_535, 65_535, 0), None),
    (Ask::Dispatch(65_536, 0, 1), Some(Refusal::TooManyGroups)),
    (Ask::Dispatch(0, 65_536, 1), Some(Refusal::TooManyGroups)),
    (Ask::Dispatch(0, 0, u32::MAX), Some(Refusal::TooManyGroups)),
    (
        Ask::Dispatch(65_535, 65_535, 65_535),
        Some(Refusal::TooManyGroups),
    ),
    (Ask::DispatchIndirect(7, 2), Some(Refusal::UnknownId)),
    (Ask::DispatchIndirect(6, 2), Some(Refusal::OutOfRange)),
    (Ask::DispatchIndirect(6, 16), Some(Refusal::OutOfRange)),
    (Ask::DispatchIndirect(6, 12), None),
    (Ask::DispatchIndirect(6, 0), None),
];
