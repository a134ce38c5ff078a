ghost use Rattle.std.specs.Prelude.{◌≡◌, ◌<◌, ◌≤◌, ◌+◌, ◌*◌, ◌^◌, ℕ, List, ◌++◌, length, drop, OnOk, IfOk, IfErr, IsTrue};
ghost use Rattle.std.specs.String.{string_bytes};
ghost use Rattle.call_log.specs.Body.{fits_layout};
ghost use Rattle.call_log.specs.View.{frame_view};
ghost use Rattle.hex.specs.Hex.{encode_lower};
ghost use Rattle.log_text.specs.LogText.{text_of, line, fields, number_field, number_fields, bytes_field};
ghost use Rattle.log_text.specs.Reading.{call_text};

use byteorder::{ByteOrder, LittleEndian};
use call_log::{Item, Layout, Log, kind_numbered};
use std::alloc::{AllocError, Global};

// How many bytes are written as hexadecimal at a time.
const PIECE: usize = 64;

/// The text of a log: a line for each of its records.
pub fn list(alloc: Global, log: &Log<'_>) -> Result<String, AllocError>
    ensures { IfOk result (λ text. string_bytes text ≡ text_of log.now.frames) }
{
    let mut text = String::from_str(alloc, "d3l1 1\n")?;
    let count = log.count();
    'calls: for i in 0..count {
        push_call(&mut text, log, i + 1)?;
    }
    text.push_str("end\n")?;
    Ok(text)
}

// Appends the line of call n.
fn push_call(text: &mut String, log: &Log<'_>, n: u32) -> Result<(), AllocError>
    requires { n ≤ length log.now.frames }
    ensures { OnOk result (string_bytes text.new ≡ string_bytes text.old ++ call_text log.now.frames n) }
{
    match log.item(n) {
        Some(item) => push_line(text, item),
        None => Ok(()),
    }
}

// Appends the line of a record.
fn push_line(text: &mut String, item: Item<'_>) -> Result<(), AllocError>
    ensures { OnOk result (string_bytes text.new ≡ string_bytes text.old ++ line (frame_view item.entry)) }
{
    let Some(kind) = kind_numbered(item.kind) else {
        unreachable!()
    };
    write!(text, "{} {}", item.context, kind.name)?;
    push_fields(text, kind.layout, item.body)?;
    text.push_str("\n")
}

// Appends the fields of a body.
fn push_fields(text: &mut String, layout: Layout, body: &[u8]) -> Result<(), AllocError>
    requires { IsTrue (fits_layout layout body.now) }
    ensures { OnOk result (string_bytes text.new ≡ string_bytes text.old ++ fields layout body.now) }
{
    match layout {
        Layout::Words(n) => push_numbers(text, n as usize, body),
        Layout::Counted(n) => {
            push_numbers(text, n as usize, body)?;
            push_bytes(text, tail(body, 4 * n as usize + 4))
        }
        Layout::Tokens => {
            push_numbers(text, 1, body)?;
            push_bytes(text, tail(body, 4))
        }
        Layout::Free => push_bytes(text, body),
    }
}

// Appends the first n words of a body.
fn push_numbers(text: &mut String, n: usize, body: &[u8]) -> Result<(), AllocError>
    requires few { n < 256 }
    requires inside { 4 * n ≤ length body.now }
    ensures { OnOk result (string_bytes text.new ≡ string_bytes text.old ++ number_fields n body.now) }
{
    let mut rest = body;
    'numbers: for i in 0..n {
        push_number(text, LittleEndian::read_u32(rest))?;
        rest = tail(rest, 4);
    }
    Ok(())
}

// The bytes of a body from a place on.
fn tail(body: &[u8], from: usize) -> &[u8]
    requires { from ≤ length body.now }
    ensures { result.now ≡ drop from body.now }
{
    &body[from..]
}

fn push_number(text: &mut String, number: u32) -> Result<(), AllocError>
    ensures { OnOk result (string_bytes text.new ≡ string_bytes text.old ++ number_field number) }
{
    write!(text, " {number}")
}

// Appends some bytes as a field.
fn push_bytes(text: &mut String, bytes: &[u8]) -> Result<(), AllocError>
    ensures { OnOk result (string_bytes text.new ≡ string_bytes text.old ++ bytes_field bytes.now) }
{
    if bytes.is_empty() {
        return text.push_str(" -");
    }
    text.push_str(" ")?;
    push_hex(text, bytes)
}

// Appends some bytes in hexadecimal, a piece at a time.
fn push_hex(text: &mut String, bytes: &[u8]) -> Result<(), AllocError>
    ensures { OnOk result (string_bytes text.new ≡ string_bytes text.old ++ encode_lower bytes.now) }
{
    let mut rest = bytes;
    'pieces: while !rest.is_empty() {
        let (piece, after) = rest.split_at(rest.len().min(PIECE));
        push_piece(text, piece)?;
        rest = after;
    }
    Ok(())
}

fn push_piece(text: &mut String, piece: &[u8]) -> Result<(), AllocError>
    requires { length piece.now ≤ 64 }
    ensures { OnOk result (string_bytes text.new ≡ string_bytes text.old ++ encode_lower piece.now) }
{
    let mut room = [0; 2 * PIECE];
    let digits = &mut room[..2 * piece.len()];
    hex::encode_to_slice(piece, digits).unwrap();
    text.push_str(str::from_utf8(digits).unwrap())
}
