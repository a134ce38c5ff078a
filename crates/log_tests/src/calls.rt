// A call of each kind.
ghost use Rattle.std.specs.Prelude.{IsTrue};
ghost use Rattle.call_log.specs.Put.{IsPuttable};
ghost use Rattle.call_log.specs.View.{call_view};

use call_log::{Call, Item, Log, put_call, put_end, put_header, read_log};
use std::process::Abort;
use std::test::Fail;

// A record can spell the call: its bytes are few, token words are whole, and a draw has the kind of one.
fn is_puttable(call: &Call<'_>) -> bool
    ensures { IsTrue result → IsPuttable (call_view call.now) }
{
    match *call {
        Call::Buffer { bytes, .. } | Call::Update { bytes, .. } | Call::MapWrite { bytes, .. } => {
            bytes.len() < 1000
        }
        Call::CreateShader { words, .. } => words.len() % 4 == 0 && words.len() < 1000,
        Call::Draw { kind, body } => kind >= 64 && kind <= 79 && body.len() < 1000,
        _ => true,
    }
}

pub(crate) fn put(buf: &mut Vec<u8>, context: u16, call: &Call<'_>) -> Result<(), Fail> {
    if !is_puttable(call) {
        return Err("no record spells the call")?;
    }
    Ok(put_call(buf, context, call)?)
}

// A call, its kind and the length of its body in bytes.
struct Sample {
    kind: u16,
    len: usize,
    call: Call<'static>,
}

static SAMPLES: [Sample; 26] = [
    Sample {
        kind: 1,
        len: 31,
        call: Call::Buffer {
            id: 0x01021415,
            size: 0x01022526,
            usage: 0x01023637,
            bind: 0x01024748,
            misc: 0x01025859,
            stride: 0x0102696a,
            bytes: b"abc",
        },
    },
    Sample {
        kind: 2,
        len: 28,
        call: Call::View {
            view: 0x01027a7b,
            res: 0x01028b8c,
            kind: 0x01029c9d,
            form: 0x0102adae,
            components: 0x0102bebf,
            first: 0x0102cfd0,
            count: 0x0102e0e1,
        },
    },
    Sample {
        kind: 3,
        len: 12,
        call: Call::CreateShader {
            id: 0x0102f1f2,
            words: b"12345678",
        },
    },
    Sample {
        kind: 4,
        len: 8,
        call: Call::Query {
            id: 0x01030303,
            sort: 0x01031414,
        },
    },
    Sample {
        kind: 5,
        len: 8,
        call: Call::Destroy {
            class: 0x01032525,
            id: 0x01033636,
        },
    },
    Sample {
        kind: 16,
        len: 4,
        call: Call::SetShader { id: 0x01034747 },
    },
    Sample {
        kind: 17,
        len: 8,
        call: Call::SetConstant {
            slot: 0x01035858,
            res: 0x01036969,
        },
    },
    Sample {
        kind: 18,
        len: 8,
        call: Call::SetSrv {
            slot: 0x01037a7a,
            view: 0x01038b8b,
        },
    },
    Sample {
        kind: 19,
        len: 8,
        call: Call::SetUav {
            slot: 0x01039c9c,
            view: 0x0103adad,
        },
    },
    Sample {
        kind: 20,
        len: 0,
        call: Call::ClearState,
    },
    Sample {
        kind: 32,
        len: 12,
        call: Call::Dispatch {
            x: 0x0103bebe,
            y: 0x0103cfcf,
            z: 0x0103e0e0,
        },
    },
    Sample {
        kind: 33,
        len: 8,
        call: Call::DispatchIndirect {
            res: 0x0103f1f1,
            offset: 0x01040302,
        },
    },
    Sample {
        kind: 34,
        len: 20,
        call: Call::CopyRegion {
            target: 0x01041413,
            target_offset: 0x01042524,
            source: 0x01043635,
            source_offset: 0x01044746,
            length: 0x01045857,
        },
    },
    Sample {
        kind: 35,
        len: 8,
        call: Call::Copy {
            target: 0x01046968,
            source: 0x01047a79,
        },
    },
    Sample {
        kind: 36,
        len: 15,
        call: Call::Update {
            res: 0x01048b8a,
            offset: 0x01049c9b,
            bytes: b"abc",
        },
    },
    Sample {
        kind: 37,
        len: 20,
        call: Call::ClearUav {
            view: 0x0104adac,
            v0: 0x0104bebd,
            v1: 0x0104cfce,
            v2: 0x0104e0df,
            v3: 0x0104f1f0,
        },
    },
    Sample {
        kind: 38,
        len: 16,
        call: Call::SetPredication {
            kind: 0x01050301,
            id: 0x01051412,
            offset: 0x01052523,
            value: 0x01053634,
        },
    },
    Sample {
        kind: 39,
        len: 4,
        call: Call::Begin { query: 0x01054745 },
    },
    Sample {
        kind: 40,
        len: 4,
        call: Call::EndQuery { query: 0x01055856 },
    },
    Sample {
        kind: 48,
        len: 19,
        call: Call::MapWrite {
            res: 0x01056967,
            mode: 0x01057a78,
            offset: 0x01058b89,
            bytes: b"abc",
        },
    },
    Sample {
        kind: 49,
        len: 16,
        call: Call::MapRead {
            res: 0x01059c9a,
            flag: 0x0105adab,
            offset: 0x0105bebc,
            length: 0x0105cfcd,
        },
    },
    Sample {
        kind: 50,
        len: 8,
        call: Call::GetData {
            query: 0x0105e0de,
            flag: 0x0105f1ef,
        },
    },
    Sample {
        kind: 51,
        len: 0,
        call: Call::Flush,
    },
    Sample {
        kind: 52,
        len: 4,
        call: Call::FinishList { list: 0x01060300 },
    },
    Sample {
        kind: 53,
        len: 8,
        call: Call::ExecuteList {
            list: 0x01061411,
            flag: 0x01062522,
        },
    },
    Sample {
        kind: 79,
        len: 5,
        call: Call::Draw {
            kind: 79,
            body: b"draws",
        },
    },
];

const CONTEXT: u16 = 0x1234;

fn put_samples(buf: &mut Vec<u8>) -> Result<(), Fail> {
    put_header(buf)?;
    for sample in &SAMPLES {
        put(buf, CONTEXT, &sample.call)?;
    }
    Ok(put_end(buf)?)
}

// A record that reads back as a sample, and stands at a place.
fn reads_back(rt: &impl Abort, item: Item<'_>, sample: &Sample, at: u64) {
    assert_eq!(rt;
        (item.kind, item.context, item.at, item.body.len()),
        (sample.kind, CONTEXT, at, sample.len)
    );
    assert!(rt; item.call() == sample.call, "kind {}", sample.kind);
}

fn all_read_back(rt: &impl Abort, log: &Log<'_>) -> Result<(), Fail> {
    let mut number = 0u32;
    let mut at = 8u64;
    for sample in &SAMPLES {
        number = number.saturating_add(1);
        let item = log.item(number).ok_or("no item")?;
        reads_back(rt, item, sample, at);
        at = at.saturating_add(8).saturating_add(sample.len as u64);
    }
    Ok(())
}

#[test]
fn each_kind_reads_back(rt: HostRuntime) -> Result<(), Fail> {
    let mut buf = Vec::new(rt.alloc());
    put_samples(&mut buf)?;
    assert!(rt; buf.len() < 2000);
    let log = read_log(rt.alloc(), &buf).ok().ok_or("a fault")?;
    assert_eq!(rt; log.count(), 26);
    assert!(rt; log.item(0).is_none() && log.item(27).is_none());
    all_read_back(&rt, &log)
}
