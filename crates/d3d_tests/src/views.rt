// The bytes of views of buffers.
use d3d_views::view_span;
use dx_types::{Form, Refusal, Shape, Span, Usage, ViewShape};
use std::process::Abort;
use std::test::Fail;

const RAW: Shape = Shape {
    size: 64,
    usage: Usage::Default,
    bind: 6,
    misc: 1,
    stride: 0,
};

const STRUCTURED: Shape = Shape {
    size: 64,
    usage: Usage::Default,
    bind: 2,
    misc: 2,
    stride: 12,
};

const TYPED: Shape = Shape {
    size: 64,
    usage: Usage::Default,
    bind: 4,
    misc: 0,
    stride: 0,
};

// A view of a buffer: whether it is for writes, its form, its unit, its first element and how many it has.
struct Viewed(Shape, bool, Form, u32, u64, u64);

fn view_of(viewed: &Viewed) -> ViewShape {
    let Viewed(_, writable, form, unit, first, count) = *viewed;
    ViewShape {
        res: 1,
        writable,
        form,
        unit,
        first,
        count,
    }
}

// The span of a view, where its unit goes with its form.
fn span_of(shape: &Shape, v: &ViewShape) -> Option<Result<Span, Refusal>> {
    let goes = match v.form {
        Form::Raw => v.unit == 4,
        Form::Structured => v.unit == shape.stride,
        Form::Typed => v.unit == 4 || v.unit == 8 || v.unit == 16,
    };
    if goes {
        Some(view_span(shape, v))
    } else {
        None
    }
}

static SPANS: [(Viewed, Span); 5] = [
    (
        Viewed(RAW, false, Form::Raw, 4, 3, 13),
        Span { start: 12, len: 52 },
    ),
    (
        Viewed(RAW, true, Form::Raw, 4, 0, 1),
        Span { start: 0, len: 4 },
    ),
    (
        Viewed(STRUCTURED, false, Form::Structured, 12, 2, 3),
        Span { start: 24, len: 36 },
    ),
    (
        Viewed(TYPED, true, Form::Typed, 16, 1, 3),
        Span { start: 16, len: 48 },
    ),
    (
        Viewed(RAW, true, Form::Typed, 8, 7, 1),
        Span { start: 56, len: 8 },
    ),
];

const FAR: u64 = 18_446_744_073_709_551_615;

static NO_SPANS: [(Viewed, Refusal); 9] = [
    (
        Viewed(STRUCTURED, true, Form::Structured, 12, 0, 0),
        Refusal::BadBind,
    ),
    (Viewed(TYPED, false, Form::Raw, 4, 0, 1), Refusal::BadBind),
    (Viewed(TYPED, true, Form::Raw, 4, 0, 0), Refusal::BadFormat),
    (
        Viewed(TYPED, true, Form::Structured, 0, 0, 1),
        Refusal::BadFormat,
    ),
    (
        Viewed(STRUCTURED, false, Form::Typed, 4, 0, 1),
        Refusal::BadFormat,
    ),
    (Viewed(RAW, false, Form::Raw, 4, 3, 14), Refusal::OutOfRange),
    (Viewed(RAW, false, Form::Raw, 4, 3, 0), Refusal::OutOfRange),
    (
        Viewed(STRUCTURED, false, Form::Structured, 12, 5, 1),
        Refusal::OutOfRange,
    ),
    (
        Viewed(RAW, false, Form::Raw, 4, FAR, FAR),
        Refusal::OutOfRange,
    ),
];

fn expect_span(rt: &impl Abort, viewed: &Viewed, want: Result<Span, Refusal>) {
    let v = view_of(viewed);
    assert_eq!(rt; span_of(&viewed.0, &v), Some(want), "{v:?}");
}

#[test]
fn spans(rt: HostRuntime) -> Result<(), Fail> {
    for (viewed, span) in &SPANS {
        expect_span(&rt, viewed, Ok(*span));
    }
    for (viewed, why) in &NO_SPANS {
        expect_span(&rt, viewed, Err(*why));
    }
    Ok(())
}
