// What is set, and queries.
use super::{Ask, Row};
use dx_types::Refusal;

pub(super) static ROWS: [Row; 34] = [
    (Ask::SetConstant(13, 5), None),
    (Ask::SetConstant(14, 0), Some(Refusal::OutOfRange)),
    (Ask::SetConstant(0, 9), Some(Refusal::UnknownId)),
    (Ask::SetConstant(0, 1), Some(Refusal::BadBind)),
    (Ask::SetSrv(15, 1), None),
    (Ask::SetSrv(16, 0), Some(Refusal::OutOfRange)),
    (Ask::SetSrv(0, 2), Some(Refusal::BadBind)),
    (Ask::SetUav(7, 2), None),
    (Ask::SetUav(8, 0), Some(Refusal::OutOfRange)),
    (Ask::SetUav(0, 1), Some(Refusal::BadBind)),
    (Ask::SetUav(0, 3), Some(Refusal::UnknownId)),
    (Ask::SetPredication(0, 0, 0, 0), None),
    (Ask::SetPredication(3, 0, 0, 9), Some(Refusal::BadUsage)),
    (Ask::SetPredication(0, 0, 0, 1), Some(Refusal::OutOfRange)),
    (Ask::SetPredication(1, 3, 0, 1), None),
    (Ask::SetPredication(1, 3, 4, 1), Some(Refusal::OutOfRange)),
    (Ask::SetPredication(1, 1, 0, 0), Some(Refusal::QueryState)),
    (Ask::SetPredication(1, 2, 0, 0), Some(Refusal::QueryState)),
    (Ask::SetPredication(2, 6, 12, 1), None),
    (Ask::SetPredication(2, 6, 12, 2), Some(Refusal::OutOfRange)),
    (Ask::SetPredication(2, 6, 13, 1), Some(Refusal::OutOfRange)),
    (Ask::SetPredication(2, 1, 0, 1), Some(Refusal::BadBind)),
    (Ask::Begin(1), None),
    (Ask::Begin(2), Some(Refusal::QueryState)),
    (Ask::Begin(9), Some(Refusal::UnknownId)),
    (Ask::EndQuery(2), None),
    (Ask::EndQuery(1), Some(Refusal::QueryState)),
    (Ask::GetData(3, 1), None),
    (Ask::GetData(1, 2), Some(Refusal::BadUsage)),
    (Ask::GetData(1, 0), Some(Refusal::QueryState)),
    (Ask::Query(65_535, 3), None),
    (Ask::Query(65_536, 9), Some(Refusal::OutOfRange)),
    (Ask::Query(3, 9), Some(Refusal::IdInUse)),
    (Ask::Query(4, 4), Some(Refusal::BadUsage)),
];

pub(super) static ONCE_BEGUN: [Row; 3] = [
    (Ask::Begin(1), Some(Refusal::QueryState)),
    (Ask::EndQuery(1), None),
    (Ask::Destroy(4, 1), Some(Refusal::IdInUse)),
];
