// Buffers, views and queries that are created and destroyed.
use super::{Ask, Row};
use dx_types::Refusal;

pub(super) static ROWS: [Row; 30] = [
    (Ask::Buffer(65_535, 4, 1, b"abcd"), None),
    (Ask::Buffer(65_536, 4, 9, b""), Some(Refusal::OutOfRange)),
    (Ask::Buffer(1, 4, 9, b""), Some(Refusal::IdInUse)),
    (Ask::Buffer(9, 4, 4, b""), Some(Refusal::BadUsage)),
    (Ask::Buffer(9, 4, 1, b""), Some(Refusal::BadUsage)),
    (Ask::Buffer(9, 8, 0, b"abcd"), Some(Refusal::BadSize)),
    (Ask::Buffer(9, 3, 0, b""), Some(Refusal::BadSize)),
    (Ask::Buffer(9, 4, 3, b""), Some(Refusal::BadBind)),
    (Ask::View(3, 1, 0, 0, 0, 4), None),
    (Ask::View(3, 1, 0, 2, 4, 1), Some(Refusal::OutOfRange)),
    (Ask::View(3, 1, 0, 2, 1, 4), None),
    (Ask::View(0, 9, 0, 0, 0, 4), Some(Refusal::OutOfRange)),
    (Ask::View(1, 9, 0, 0, 0, 4), Some(Refusal::UnknownId)),
    (Ask::View(1, 1, 9, 0, 0, 4), Some(Refusal::IdInUse)),
    (Ask::View(3, 1, 2, 0, 0, 4), Some(Refusal::BadBind)),
    (Ask::View(3, 2, 1, 9, 0, 4), Some(Refusal::BadBind)),
    (Ask::View(3, 1, 0, 3, 0, 4), Some(Refusal::BadFormat)),
    (Ask::View(3, 1, 0, 2, 3, 4), Some(Refusal::BadFormat)),
    (Ask::View(3, 1, 0, 0, 1, 4), Some(Refusal::BadFormat)),
    (Ask::View(3, 2, 0, 0, 0, 4), Some(Refusal::BadFormat)),
    (Ask::View(3, 1, 0, 0, 0, 5), Some(Refusal::OutOfRange)),
    (Ask::View(3, 1, 0, 0, 0, 0), Some(Refusal::OutOfRange)),
    (Ask::Destroy(0, 1), Some(Refusal::BadUsage)),
    (Ask::Destroy(6, 1), Some(Refusal::BadUsage)),
    (Ask::Destroy(1, 1), Some(Refusal::IdInUse)),
    (Ask::Destroy(1, 2), None),
    (Ask::Destroy(1, 9), Some(Refusal::UnknownId)),
    (Ask::Destroy(2, 1), None),
    (Ask::Destroy(4, 1), None),
    (Ask::Destroy(5, 1), Some(Refusal::UnknownList)),
];

pub(super) static ONCE_SET: [Row; 1] = [(Ask::Destroy(2, 1), Some(Refusal::IdInUse))];
