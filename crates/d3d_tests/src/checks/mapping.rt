// Maps and readbacks: bytes 8 to 15 of buffer 3 are bound.
use super::{Ask, Row};
use dx_types::Refusal;

pub(super) static ROWS: [Row; 19] = [
    (Ask::MapWrite(3, 1, 4, b"abcd"), None),
    (Ask::MapWrite(3, 1, 5, b"abcd"), Some(Refusal::InUse)),
    (Ask::MapWrite(3, 1, 15, b"a"), Some(Refusal::InUse)),
    (Ask::MapWrite(3, 1, 16, b"a"), None),
    (Ask::MapWrite(3, 1, 8, b""), None),
    (Ask::MapWrite(3, 0, 8, b"abcd"), None),
    (Ask::MapWrite(3, 0, 61, b"abcd"), Some(Refusal::OutOfRange)),
    (Ask::MapWrite(3, 2, 0, b"a"), Some(Refusal::NotMappable)),
    (Ask::MapWrite(3, 3, 0, b"a"), Some(Refusal::NotMappable)),
    (Ask::MapWrite(4, 1, 0, b"a"), Some(Refusal::NotMappable)),
    (Ask::MapWrite(4, 2, 63, b"a"), None),
    (Ask::MapWrite(4, 2, 64, b"a"), Some(Refusal::OutOfRange)),
    (Ask::MapWrite(9, 9, 0, b"a"), Some(Refusal::UnknownId)),
    (Ask::MapRead(4, 1, 60, 4), None),
    (Ask::MapRead(4, 0, 60, 5), Some(Refusal::OutOfRange)),
    (Ask::MapRead(4, 0, 0, 0), Some(Refusal::OutOfRange)),
    (Ask::MapRead(4, 2, 0, 0), Some(Refusal::NotMappable)),
    (Ask::MapRead(1, 0, 0, 4), Some(Refusal::NotMappable)),
    (Ask::MapRead(9, 2, 0, 0), Some(Refusal::UnknownId)),
];
