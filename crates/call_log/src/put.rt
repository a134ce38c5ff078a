ghost use Rattle.std.specs.Prelude.{◌≡◌, ◌+◌, ◌*◌, ◌<◌, ◌≤◌, ◌^◌, ◌++◌, ◌-◌, List, ℕ, length, take, drop, OnOk, OnErr, IfOk};
ghost use Rattle.byteorder.specs.Endian.{little_bytes};
ghost use Rattle.call_log.specs.Grammar.{header, end_record, spell};
ghost use Rattle.call_log.specs.Put.{frame_of, spell_words, IsPuttable};
ghost use Rattle.call_log.specs.View.{call_view};

use crate::call::Call;
use crate::kinds::*;
use byteorder::{ByteOrder, LittleEndian};
use std::alloc::AllocError;

const HEADER: [u8; 8] = *b"D3L1\x01\0\0\0";

/// Puts the first 8 bytes of a log behind what `buf` holds. Where memory is refused `buf` is as it was.
pub fn put_header(buf: &mut Vec<u8>) -> Result<(), AllocError>
    ensures appended { OnOk result (buf.new.items ≡ buf.old.items ++ header) }
    ensures kept { OnErr result (buf.new.items ≡ buf.old.items) }
{
    buf.extend_from_slice(&HEADER)
}

/// Puts the 8 bytes that stand before a record's body, with a body length of 0 for the time being, and answers where
/// the body begins. The body is put behind them, and `close_record` then writes its length. Where memory is refused
/// `buf` is as it was.
pub fn open_record(buf: &mut Vec<u8>, kind: u16, context: u16) -> Result<usize, AllocError>
    ensures appended { OnOk result (buf.new.items ≡ buf.old.items ++ (little_bytes 2 kind ++ (little_bytes 2 context ++ little_bytes 4 0))) }
    ensures place { IfOk result (λ from. from ≡ length buf.old.items + 8) }
    ensures kept { OnErr result (buf.new.items ≡ buf.old.items) }
{
    let mut head = [0; 8];
    LittleEndian::write_u16(&mut head, kind);
    LittleEndian::write_u16(&mut head[2..], context);
    buf.extend_from_slice(&head)?;
    Ok(buf.len())
}

/// Writes the length of the record's body that begins at `from` and is all that follows: fewer than 2^32 bytes.
pub fn close_record(buf: &mut Vec<u8>, from: usize)
    requires head { 4 ≤ from }
    requires begun { from ≤ length buf.old.items }
    requires small { length buf.old.items - from < 2 ^ 32 }
    ensures { buf.new.items ≡ take (from - 4) buf.old.items ++ (little_bytes 4 (length buf.old.items - from) ++ drop from buf.old.items) }
{
    let len = buf.len() - from;
    write_length(buf.as_mut_slice(), from - 4, len as u32);
}

// Writes a length over the four bytes at a place.
fn write_length(bytes: &mut [u8], at: usize, len: u32)
    requires { at + 4 ≤ length bytes.old }
    ensures { bytes.new ≡ take at bytes.old ++ (little_bytes 4 len ++ drop (at + 4) bytes.old) }
{
    LittleEndian::write_u32(&mut bytes[at..at + 4], len);
}

/// Puts the 8 bytes that end a log behind what `buf` holds. Where memory is refused `buf` is as it was.
pub fn put_end(buf: &mut Vec<u8>) -> Result<(), AllocError>
    ensures appended { OnOk result (buf.new.items ≡ buf.old.items ++ end_record) }
    ensures kept { OnErr result (buf.new.items ≡ buf.old.items) }
{
    buf.extend_from_slice(&[0; 8])
}

/// Puts a call's record behind what `buf` holds. The body has fewer than 2^32 bytes, token words are whole, and a
/// draw's kind is from 64 to 79. Where memory is refused `buf` is as it was.
pub fn put_call(buf: &mut Vec<u8>, context: u16, call: &Call<'_>) -> Result<(), AllocError>
    requires { IsPuttable (call_view call.now) }
    ensures appended { OnOk result (buf.new.items ≡ buf.old.items ++ spell (frame_of context (call_view call.now))) }
    ensures kept { OnErr result (buf.new.items ≡ buf.old.items) }
{
    match *call {
        Call::Buffer {
            id,
            size,
            usage,
            bind,
            misc,
            stride,
            bytes,
        } => put_record(
            buf,
            BUFFER,
            context,
            &[id, size, usage, bind, misc, stride, bytes.len() as u32],
            bytes,
        ),
        Call::View {
            view,
            res,
            kind,
            form,
            components,
            first,
            count,
        } => put_record(
            buf,
            VIEW,
            context,
            &[view, res, kind, form, components, first, count],
            &[],
        ),
        Call::CreateShader { id, words } => put_record(buf, CREATE_SHADER, context, &[id], words),
        Call::Query { id, sort } => put_record(buf, QUERY, context, &[id, sort], &[]),
        Call::Destroy { class, id } => put_record(buf, DESTROY, context, &[class, id], &[]),
        Call::SetShader { id } => put_record(buf, SET_SHADER, context, &[id], &[]),
        Call::SetConstant { slot, res } => put_record(
            buf,
            SET_CONSTANT,
            context,
            &[slot, res],
            &[],
        ),
        Call::SetSrv { slot, view } => put_record(buf, SET_SRV, context, &[slot, view], &[]),
        Call::SetUav { slot, view } => put_record(buf, SET_UAV, context, &[slot, view], &[]),
        Call::ClearState => put_record(buf, CLEAR_STATE, context, &[], &[]),
        Call::Dispatch { x, y, z } => put_record(buf, DISPATCH, context, &[x, y, z], &[]),
        Call::DispatchIndirect { res, offset } => put_record(
            buf,
            DISPATCH_INDIRECT,
            context,
            &[res, offset],
            &[],
        ),
        Call::CopyRegion {
            target,
            target_offset,
            source,
            source_offset,
            length,
        } => put_record(
            buf,
            COPY_REGION,
            context,
            &[target, target_offset, source, source_offset, length],
            &[],
        ),
        Call::Copy { target, source } => put_record(buf, COPY, context, &[target, source], &[]),
        Call::Update { res, offset, bytes } => put_record(
            buf,
            UPDATE,
            context,
            &[res, offset, bytes.len() as u32],
            bytes,
        ),
        Call::ClearUav {
            view,
            v0,
            v1,
            v2,
            v3,
        } => put_record(buf, CLEAR_UAV, context, &[view, v0, v1, v2, v3], &[]),
        Call::SetPredication {
            kind,
            id,
            offset,
            value,
        } => put_record(
            buf,
            SET_PREDICATION,
            context,
            &[kind, id, offset, value],
            &[],
        ),
        Call::Begin { query } => put_record(buf, BEGIN, context, &[query], &[]),
        Call::EndQuery { query } => put_record(buf, END_QUERY, context, &[query], &[]),
        Call::MapWrite {
            res,
            mode,
            offset,
            bytes,
        } => put_record(
            buf,
            MAP_WRITE,
            context,
            &[res, mode, offset, bytes.len() as u32],
            bytes,
        ),
        Call::MapRead {
            res,
            flag,
            offset,
            length,
        } => put_record(buf, MAP_READ, context, &[res, flag, offset, length], &[]),
        Call::GetData { query, flag } => put_record(buf, GET_DATA, context, &[query, flag], &[]),
        Call::Flush => put_record(buf, FLUSH, context, &[], &[]),
        Call::FinishList { list } => put_record(buf, FINISH_LIST, context, &[list], &[]),
        Call::ExecuteList { list, flag } => put_record(
            buf,
            EXECUTE_LIST,
            context,
            &[list, flag],
            &[],
        ),
        Call::Draw { kind, body } => put_record(buf, kind, context, &[], body),
    }
}

// Puts a record of this kind whose body is some words and then some bytes.
fn put_record(
    buf: &mut Vec<u8>,
    kind: u16,
    context: u16,
    words: &[u32],
    rest: &[u8],
) -> Result<(), AllocError>
    requires { 4 * length words.now + length rest.now < 2 ^ 32 }
    ensures appended { OnOk result (buf.new.items ≡ buf.old.items ++ spell (record { kind = kind; context = context; body = spell_words words.now ++ rest.now })) }
    ensures kept { OnErr result (buf.new.items ≡ buf.old.items) }
{
    let before = buf.len();
    match append_record(buf, kind, context, words, rest) {
        Ok(()) => Ok(()),
        Err(e) => {
            buf.truncate(before);
            Err(e)
        }
    }
}

// The same, but where memory is refused some of the bytes may stand already.
fn append_record(
    buf: &mut Vec<u8>,
    kind: u16,
    context: u16,
    words: &[u32],
    rest: &[u8],
) -> Result<(), AllocError>
    requires { 4 * length words.now + length rest.now < 2 ^ 32 }
    ensures appended { OnOk result (buf.new.items ≡ buf.old.items ++ spell (record { kind = kind; context = context; body = spell_words words.now ++ rest.now })) }
    ensures front { take (length buf.old.items) buf.new.items ≡ buf.old.items }
{
    let from = open_record(buf, kind, context)?;
    append_words(buf, words)?;
    buf.extend_from_slice(rest)?;
    close_record(buf, from);
    Ok(())
}

// Puts some words, or some of them.
fn append_words(buf: &mut Vec<u8>, words: &[u32]) -> Result<(), AllocError>
    ensures appended { OnOk result (buf.new.items ≡ buf.old.items ++ spell_words words.now) }
    ensures front { take (length buf.old.items) buf.new.items ≡ buf.old.items }
{
    'words: for word in words {
        let mut bytes = [0; 4];
        LittleEndian::write_u32(&mut bytes, *word);
        buf.extend_from_slice(&bytes)?;
    }
    Ok(())
}
