// Why calls are refused: each check of each kind of call at its edge.

mod commands;
mod creating;
mod mapping;
mod setting;
mod shading;

use crate::live::{add_buffer, add_shader, add_view, set_srv};
use crate::same::same;
use call_log::Call;
use d3d_checks::{decode_created, verdict};
use d3d_state::{Objects, Query, Setting, Sort};
use d3d_uses::Uses;
use dx_types::{Refusal, ResRange, Shape, Usage};
use std::alloc::Global;
use std::process::Abort;
use std::test::Fail;

// A call in few words: its fields stand in the order of the call's own. A buffer has the bind bit 2,
// and no misc bit and stride; a view begins at element 12; a clear writes the words 1, 0, 0 and 0.
enum Ask {
    Buffer(u32, u32, u32, &'static [u8]),
    View(u32, u32, u32, u32, u32, u32),
    CreateShader(u32, &'static [u8]),
    Query(u32, u32),
    Destroy(u32, u32),
    SetShader(u32),
    SetConstant(u32, u32),
    SetSrv(u32, u32),
    SetUav(u32, u32),
    Dispatch(u32, u32, u32),
    DispatchIndirect(u32, u32),
    CopyRegion(u32, u32, u32, u32, u32),
    Copy(u32, u32),
    Update(u32, u32, &'static [u8]),
    ClearUav(u32),
    SetPredication(u32, u32, u32, u32),
    Begin(u32),
    EndQuery(u32),
    MapWrite(u32, u32, u32, &'static [u8]),
    MapRead(u32, u32, u32, u32),
    GetData(u32, u32),
    Other(Call<'static>),
}

// A call, and why it is refused, if it is.
type Row = (Ask, Option<Refusal>);

fn call_of(ask: &Ask) -> Call<'static> {
    match *ask {
        Ask::Buffer(id, size, usage, bytes) => Call::Buffer {
            id,
            size,
            usage,
            bind: 2,
            misc: 0,
            stride: 0,
            bytes,
        },
        Ask::View(view, res, kind, form, components, count) => Call::View {
            view,
            res,
            kind,
            form,
            components,
            first: 12,
            count,
        },
        Ask::CreateShader(id, words) => Call::CreateShader { id, words },
        Ask::Query(id, sort) => Call::Query { id, sort },
        Ask::Destroy(class, id) => Call::Destroy { class, id },
        Ask::SetShader(id) => Call::SetShader { id },
        Ask::SetConstant(slot, res) => Call::SetConstant { slot, res },
        Ask::SetSrv(slot, view) => Call::SetSrv { slot, view },
        Ask::SetUav(slot, view) => Call::SetUav { slot, view },
        Ask::Dispatch(x, y, z) => Call::Dispatch { x, y, z },
        Ask::DispatchIndirect(res, offset) => Call::DispatchIndirect { res, offset },
        Ask::CopyRegion(target, target_offset, source, source_offset, length) => Call::CopyRegion {
            target,
            target_offset,
            source,
            source_offset,
            length,
        },
        Ask::Copy(target, source) => Call::Copy { target, source },
        Ask::Update(res, offset, bytes) => Call::Update { res, offset, bytes },
        Ask::ClearUav(view) => Call::ClearUav {
            view,
            v0: 1,
            v1: 0,
            v2: 0,
            v3: 0,
        },
        Ask::SetPredication(kind, id, offset, value) => Call::SetPredication {
            kind,
            id,
            offset,
            value,
        },
        Ask::Begin(query) => Call::Begin { query },
        Ask::EndQuery(query) => Call::EndQuery { query },
        Ask::MapWrite(res, mode, offset, bytes) => Call::MapWrite {
            res,
            mode,
            offset,
            bytes,
        },
        Ask::MapRead(res, flag, offset, length) => Call::MapRead {
            res,
            flag,
            offset,
            length,
        },
        Ask::GetData(query, flag) => Call::GetData { query, flag },
        Ask::Other(call) => call,
    }
}

// Why call 12 of a context is refused.
fn why(
    alloc: Global,
    objects: &Objects<'_>,
    uses: &Uses,
    context: u16,
    call: &Call<'_>,
) -> Result<Option<Refusal>, Fail> {
    let shader = decode_created(alloc, 12, call)?;
    Ok(verdict(objects, uses, context, call, shader.is_some()))
}

fn expect_on(
    rt: &impl Abort,
    alloc: Global,
    objects: &Objects<'_>,
    uses: &Uses,
    context: u16,
    rows: &[Row],
) -> Result<(), Fail> {
    for (ask, want) in rows {
        let call = call_of(ask);
        assert_eq!(rt;
            why(alloc, objects, uses, context, &call)?,
            *want,
            "{call:?}"
        );
    }
    Ok(())
}

fn expect(
    rt: &impl Abort,
    alloc: Global,
    objects: &Objects<'_>,
    uses: &Uses,
    rows: &[Row],
) -> Result<(), Fail> {
    expect_on(rt, alloc, objects, uses, 0, rows)
}

// A live buffer: its id, size, usage, bind bits and misc bits.
struct Buffer(u32, u64, Usage, u32, u32);

// Buffer 1 is for views of both kinds, 5 for constants, and 6 for counts.
static BUFFERS: [Buffer; 6] = [
    Buffer(1, 64, Usage::Default, 6, 1),
    Buffer(2, 64, Usage::Immutable, 2, 0),
    Buffer(3, 64, Usage::Dynamic, 2, 0),
    Buffer(4, 64, Usage::Staging, 0, 0),
    Buffer(5, 64, Usage::Default, 1, 0),
    Buffer(6, 16, Usage::Default, 0, 4),
];

fn added(went: bool) -> Result<(), Fail> {
    if went {
        Ok(())
    } else {
        Err(Fail::from("not added"))
    }
}

fn add(objects: &mut Objects<'_>, buffer: &Buffer) -> Result<(), Fail> {
    let Buffer(id, size, usage, bind, misc) = *buffer;
    let shape = Shape {
        size,
        usage,
        bind,
        misc,
        stride: 0,
    };
    added(add_buffer(objects, id, shape)?)
}

// View 1 of buffer 1 is for reads, and view 2 for writes.
fn add_views(objects: &mut Objects<'_>) -> Result<(), Fail> {
    for (id, writable) in [(1, false), (2, true)] {
        added(add_view(objects, id, 1, writable)?)?;
    }
    Ok(())
}

// Only query 3 has a result, and query 2 is an event.
fn add_queries(objects: &mut Objects<'_>) -> Result<(), Fail> {
    for (id, sort) in [
        (1, Sort::OcclusionPredicate),
        (2, Sort::Event),
        (3, Sort::OcclusionPredicate),
    ] {
        objects.create_query(id, Query::new(sort))?;
    }
    objects.begin(3);
    objects.end(3, 1);
    Ok(())
}

fn live_objects(alloc: Global) -> Result<Objects<'static>, Fail> {
    let mut objects = Objects::new(alloc)?;
    for buffer in &BUFFERS {
        add(&mut objects, buffer)?;
    }
    add_views(&mut objects)?;
    add_queries(&mut objects)?;
    Ok(objects)
}

// The rows where no call binds anything.
fn play(rt: &impl Abort, alloc: Global, objects: &Objects<'_>, rows: &[Row]) -> Result<(), Fail> {
    expect(rt, alloc, objects, &Uses::new(alloc), rows)
}

// Each check of copies, updates, clears and dispatches at its edge.
#[test]
fn work(rt: HostRuntime) -> Result<(), Fail> {
    let objects = live_objects(rt.alloc())?;
    play(&rt, rt.alloc(), &objects, &commands::ROWS)
}

// Bytes 8 to 15 of buffer 3 are bound.
fn some_use(alloc: Global) -> Result<Uses, Fail> {
    let mut uses = Uses::new(alloc);
    let bound = ResRange {
        res: 3,
        from: 8,
        to: 16,
    };
    uses.bound(1, &bound)?;
    Ok(uses)
}

// Maps and readbacks; what is in use is asked by bytes.
#[test]
fn maps(rt: HostRuntime) -> Result<(), Fail> {
    let objects = live_objects(rt.alloc())?;
    let uses = some_use(rt.alloc())?;
    expect(&rt, rt.alloc(), &objects, &uses, &mapping::ROWS)
}

// What is set, and queries.
#[test]
fn settings(rt: HostRuntime) -> Result<(), Fail> {
    let mut objects = live_objects(rt.alloc())?;
    play(&rt, rt.alloc(), &objects, &setting::ROWS)?;
    objects.begin(1);
    play(&rt, rt.alloc(), &objects, &setting::ONCE_BEGUN)
}

// Why a flush is refused that stands on the first context that there isn't.
fn flush_refusal(alloc: Global, objects: &Objects<'_>) -> Option<Refusal> {
    verdict(objects, &Uses::new(alloc), 17, &Call::Flush, false)
}

// Objects are created and destroyed.
#[test]
fn resources(rt: HostRuntime) -> Result<(), Fail> {
    let mut objects = live_objects(rt.alloc())?;
    play(&rt, rt.alloc(), &objects, &creating::ROWS)?;
    set_srv(&mut objects, 0, 1)?;
    play(&rt, rt.alloc(), &objects, &creating::ONCE_SET)?;
    let flush = flush_refusal(rt.alloc(), &objects);
    same(&rt, &flush, &Some(Refusal::WrongContext), "context 17");
    Ok(())
}

// Shaders 1 and 65,535 are live, and buffer 6 has the counts of two indirect dispatches.
fn live_shaders(alloc: Global) -> Result<Objects<'static>, Fail> {
    let mut objects = Objects::new(alloc)?;
    add(&mut objects, &Buffer(6, 24, Usage::Default, 0, 4))?;
    for id in [1, 65_535] {
        add_shader(alloc, &mut objects, id, 9, shading::GOOD)?;
    }
    Ok(objects)
}

// Creations ask the id, then what is live, then the words; what is set is in use.
#[test]
fn shaders(rt: HostRuntime) -> Result<(), Fail> {
    let mut objects = live_shaders(rt.alloc())?;
    objects.set(0, Setting::Shader(1));
    play(&rt, rt.alloc(), &objects, &shading::CREATIONS)?;
    play(&rt, rt.alloc(), &objects, &shading::ONCE_SET)?;
    objects.set(0, Setting::Default);
    play(&rt, rt.alloc(), &objects, &shading::ONCE_CLEARED)
}

// Dispatches without a shader, and with one whose group has 256 threads, so 65,536 groups are the most.
#[test]
fn dispatches(rt: HostRuntime) -> Result<(), Fail> {
    let mut objects = live_shaders(rt.alloc())?;
    play(&rt, rt.alloc(), &objects, &shading::WITHOUT)?;
    objects.set(0, Setting::Shader(1));
    play(&rt, rt.alloc(), &objects, &shading::WITH)
}
