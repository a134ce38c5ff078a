// Queries that are live, and which of them are in use.
use crate::same::same;
use d3d_state::{Objects, Query, Setting, Sort};
use d3d_views::Predicate;
use dx_types::CallNo;
use std::process::Abort;
use std::test::Fail;

// What is done with queries, or asked of them with the answer.
enum Step {
    Create(u32, Sort),
    Begin(u32),
    End(u32, CallNo),
    SetPredicate(Option<u32>),
    Destroy(u32),
    IsLive(u32, bool),
    IsEvent(u32, bool),
    IsPredicate(u32, bool),
    HasResult(u32, bool),
    Ended(u32, Option<CallNo>),
    IsBegun(u32, bool),
    IsUsed(u32, bool),
}

struct Row {
    shows: &'static str,
    steps: &'static [Step],
}

static QUERIES: [Row; 6] = [
    Row {
        shows: "new queries",
        steps: &[
            Step::Create(5, Sort::OcclusionPredicate),
            Step::Create(6, Sort::Event),
            Step::IsEvent(5, false),
            Step::IsPredicate(5, true),
            Step::HasResult(5, false),
            Step::IsEvent(6, true),
            Step::IsPredicate(6, false),
            Step::HasResult(6, false),
        ],
    },
    Row {
        shows: "a query begins",
        steps: &[
            Step::Begin(5),
            Step::IsBegun(5, true),
            Step::IsUsed(5, true),
            Step::IsUsed(6, false),
        ],
    },
    Row {
        shows: "a query ends",
        steps: &[
            Step::End(5, 9),
            Step::Ended(5, Some(9)),
            Step::HasResult(5, true),
            Step::IsUsed(5, false),
        ],
    },
    Row {
        shows: "a query is a predicate",
        steps: &[Step::SetPredicate(Some(5)), Step::IsUsed(5, true)],
    },
    Row {
        shows: "a query begins again",
        steps: &[
            Step::SetPredicate(None),
            Step::Begin(5),
            Step::HasResult(5, false),
        ],
    },
    Row {
        shows: "a query is destroyed",
        steps: &[Step::Destroy(6), Step::IsLive(6, false)],
    },
];

fn live_query(objects: &Objects<'_>, id: u32) -> Result<Query, Fail> {
    Ok(objects.query(id).ok_or("live")?)
}

fn set_predicate(objects: &mut Objects<'_>, query: Option<u32>) {
    match query {
        Some(id) => objects.set(0, Setting::Predicate(Predicate::Query { id, value: 1 })),
        None => objects.set(0, Setting::Predicate(Predicate::Never)),
    }
}

fn take(rt: &impl Abort, objects: &mut Objects<'_>, shows: &str, step: &Step) -> Result<(), Fail> {
    match step {
        Step::Create(id, sort) => objects.create_query(*id, Query::new(*sort))?,
        Step::Begin(id) => objects.begin(*id),
        Step::End(id, call) => objects.end(*id, *call),
        Step::SetPredicate(query) => set_predicate(objects, *query),
        Step::Destroy(id) => objects.destroy_query(*id),
        Step::IsLive(id, want) => same(rt, &objects.query(*id).is_some(), want, shows),
        Step::IsEvent(id, want) => {
            same(rt, &live_query(objects, *id)?.is_event(), want, shows);
        }
        Step::IsPredicate(id, want) => {
            same(rt, &live_query(objects, *id)?.is_predicate(), want, shows);
        }
        Step::HasResult(id, want) => {
            same(rt, &live_query(objects, *id)?.has_result(), want, shows);
        }
        Step::Ended(id, want) => same(rt, &live_query(objects, *id)?.ended, want, shows),
        Step::IsBegun(id, want) => same(rt, &objects.is_begun(*id), want, shows),
        Step::IsUsed(id, want) => same(rt, &objects.uses_query(*id), want, shows),
    }
    Ok(())
}

// A query is begun and ended on the immediate context, and is in use as a predicate.
#[test]
fn queries(rt: HostRuntime) -> Result<(), Fail> {
    let mut objects = Objects::new(rt.alloc())?;
    for row in &QUERIES {
        for step in row.steps {
            take(&rt, &mut objects, row.shows, step)?;
        }
    }
    Ok(())
}
