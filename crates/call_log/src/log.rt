ghost use Rattle.std.specs.Prelude.{◌≡◌, ℕ, ◌+◌, ◌-◌, ◌*◌, ◌<◌, ◌≤◌, ◌^◌, List, length, drop, IfOk, IfErr, IfSome, None};
ghost use Rattle.std.specs.Borrow.{Bor};
ghost use Rattle.std.specs.Option.{option_map};
ghost use Rattle.call_log.specs.Grammar.{IsLog, IsWhole, header_fault, frame_at, frames_at, frame_no, start_behind, part_of, StandsAt, Indexed, BadOnly, length_of};
ghost use Rattle.call_log.specs.View.{frame_view};
ghost use Rattle.dx_types.specs.declared.limits.TheConstants.{MAX_INPUT};

use crate::body::tail;
use crate::fault::{Head, LogEnd};
use crate::head::{head_of, header_fault};
use crate::item::Item;
use byteorder::{ByteOrder, LittleEndian};
use dx_types::{CallNo, Span};
use std::alloc::Global;
use std::marker::Model;

/// A log that was read. A clause sees its bytes and the list of its records. Its calls take no memory, and lend
/// the input's own bytes.
#[derive(Debug, Drop)]
pub struct Log<'a> {
    bytes: &'a [u8],
    starts: Vec<u32>,
}

impl<'a> Model for Log<'a> {
    ghost use Rattle.call_log.specs.Grammar.{Reading, Indexed, frames_at};

    ghost Value = { Reading };

    ghost view = { λ l. record { bytes = l.bytes.now; frames = frames_at l.bytes.now l.starts.items } };

    ghost invariant = { λ l. Indexed l.bytes.now l.starts.items };
}

impl Log<'_> {
    /// How many calls it has. Its bytes are a log of its records, and at most 67,108,864.
    pub fn count(&self) -> CallNo
        ensures count { result ≡ length self.now.frames }
        ensures log { IsLog self.now.bytes self.now.frames }
        ensures small { length self.now.bytes ≤ MAX_INPUT }
    {
        self.starts.len() as u32
    }

    /// Call n, from 1: its record, the record's place in the input in bytes, and the record's body, 8 bytes
    /// behind that place. None where n is 0 or above the count.
    pub fn item(&self, n: CallNo) -> Option<Item<'_>>
        ensures record { option_map frame_view result ≡ frame_no self.now.frames n }
        ensures at { IfSome result (λ i. i.at ≡ start_behind self.now.frames (n - 1)) }
        ensures lent { IfSome result (λ i. StandsAt self.now.bytes (i.at + 8) i.body.now) }
        ensures small { IfSome result (λ i. i.at + 8 + length i.body.now ≤ MAX_INPUT) }
    {
        if n == 0 {
            return None;
        }
        let i = (n - 1) as usize;
        if i >= self.starts.len() {
            return None;
        }
        Some(item_at(self.bytes, self.starts[i] as usize))
    }

    /// The bytes of the input in a span; None where the span passes the input's end.
    pub fn part(&self, span: Span) -> Option<&[u8]>
        ensures { option_map (λ (b : Bor (List ℕ)). b.now) result ≡ part_of self.now.bytes span.start span.len }
    {
        let size = self.bytes.len() as u64;
        if span.start > size || span.len > size - span.start {
            return None;
        }
        Some(&self.bytes[span.start as usize..(span.start + span.len) as usize])
    }
}

// The record that stands at a place.
fn item_at(bytes: &[u8], at: usize) -> Item<'_>
    requires place { at ≤ length bytes.now }
    requires whole { IsWhole (drop at bytes.now) }
    ensures record { frame_view result ≡ frame_at (drop at bytes.now) }
    ensures at { result.at ≡ at }
{
    front_item(at as u64, tail(bytes, at))
}

fn front_item(at: u64, rest: &[u8]) -> Item<'_>
    requires { IsWhole rest.now }
    ensures record { frame_view result ≡ frame_at rest.now }
    ensures at { result.at ≡ at }
{
    let len = LittleEndian::read_u32(&rest[4..]) as usize;
    Item {
        kind: LittleEndian::read_u16(rest),
        context: LittleEndian::read_u16(&rest[2..]),
        at,
        body: &rest[8..8 + len],
    }
}

/// Reads a log of at most 67,108,864 bytes: its records, or the first fault from the front. It keeps 4 bytes a
/// call.
pub fn read_log(alloc: Global, bytes: &[u8]) -> Result<Log<'_>, LogEnd>
    requires { length bytes.now ≤ MAX_INPUT }
    ensures found { IfOk result (λ log. IsLog bytes.now log.frames) }
    ensures bytes { IfOk result (λ log. log.bytes ≡ bytes.now) }
    ensures fault { IfErr result (λ e. BadOnly bytes.now e) }
{
    if let Some(fault) = header_fault(bytes) {
        return Err(LogEnd::Bad(fault));
    }
    let starts = starts_of(alloc, bytes)?;
    Ok(Log { bytes, starts })
}

// Where the records start.
fn starts_of(alloc: Global, bytes: &[u8]) -> Result<Vec<u32>, LogEnd>
    requires small { length bytes.now ≤ MAX_INPUT }
    requires header { header_fault bytes.now ≡ None }
    ensures found { IfOk result (λ v. Indexed bytes.now v.items) }
    ensures fault { IfErr result (λ e. BadOnly bytes.now e) }
{
    let mut starts = Vec::new(alloc);
    let mut at = 8;
    'records: loop {
        let rest = tail(bytes, at);
        match head_of(at as u64, rest) {
            Head::Broken(fault) => return Err(LogEnd::Bad(fault)),
            Head::End => return Ok(starts),
            Head::Whole => {
                starts.push(at as u32)?;
                at += 8 + body_len(rest);
            }
        }
    }
}

fn body_len(rest: &[u8]) -> usize
    requires { IsWhole rest.now }
    ensures equals { result ≡ length_of rest.now }
    ensures small { result < 2 ^ 32 }
{
    LittleEndian::read_u32(&rest[4..]) as usize
}
