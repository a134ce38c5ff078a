//! Counts of invocations, added up between the marks of queries.

ghost use Rattle.std.specs.Prelude.{◌≡◌, [], IfOk};

use dx_types::CallNo;
use query_pool::Queries;
use std::alloc::{AllocError, Global};
use std::test::Fail;
use vk_types::{QueryMark, QueryValue};

// Query 1 counts command 1 and later commands 3 and 4, query 2 counts command 2. Commands run in any order, and what is
// counted of one command adds up.
fn marked(alloc: Global) -> Result<Queries, AllocError>
    ensures { IfOk result (λ q. q.counts ≡ []) }
{
    let mut queries = Queries::new(alloc);
    queries.mark(QueryMark {
        call: 3,
        query: 1,
        begins: true,
        before: 1,
    })?;
    queries.mark(QueryMark {
        call: 5,
        query: 2,
        begins: true,
        before: 2,
    })?;
    queries.mark(QueryMark {
        call: 7,
        query: 1,
        begins: false,
        before: 2,
    })?;
    queries.mark(QueryMark {
        call: 9,
        query: 2,
        begins: false,
        before: 3,
    })?;
    queries.mark(QueryMark {
        call: 10,
        query: 1,
        begins: true,
        before: 3,
    })?;
    queries.mark(QueryMark {
        call: 12,
        query: 1,
        begins: false,
        before: 5,
    })?;
    Ok(queries)
}

fn counted(alloc: Global) -> Result<Queries, AllocError> {
    let mut queries = marked(alloc)?;
    queries.count(2, 10)?;
    queries.count(1, 3)?;
    queries.count(4, 1000)?;
    queries.count(3, 100)?;
    queries.count(5, 7)?;
    queries.count(4, 20)?;
    Ok(queries)
}

fn parts(value: Option<QueryValue>) -> Option<(CallNo, u32, u64)> {
    value.map(|v| (v.call, v.query, v.value))
}

// Up to which call an answer is asked for, and what is answered in turn: the call of the End, the query, the value.
const ASKED: [(CallNo, Option<(CallNo, u32, u64)>); 6] = [
    (6, None),
    (9, Some((7, 1, 3))),
    (9, Some((9, 2, 10))),
    (11, None),
    (12, Some((12, 1, 1120))),
    (u32::MAX, None),
];

#[test]
fn counts_are_added_up_between_the_marks(rt: HostRuntime) -> Result<(), Fail> {
    let mut queries = counted(rt.alloc())?;
    for (upto, value) in ASKED {
        assert_eq!(rt; parts(queries.answer(upto)), value, "up to {upto}");
    }
    Ok(())
}
