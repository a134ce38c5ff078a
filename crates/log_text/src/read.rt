ghost use Rattle.std.specs.Prelude.{◌≡◌, ◌<◌, ◌+◌, ◌^◌, ℕ, List, ◌++◌, ◌∷◌, length, decimal, OnOk, IfOk, IfErr, IsTrue, MatchOption};
ghost use Rattle.call_log.specs.Grammar.{Frame, spell};
ghost use Rattle.log_text.specs.LogText.{IsRecord, IsBadFirst, LogText, BadOnly, bare_line, fields as form_fields};
ghost use Rattle.log_text.specs.Reading.{HasLayout, PutsRecord, ReadsLine, WhenBad};
ghost use Rattle.text_words.specs.Words.{Cut, StopsAt};

use crate::fields::read_fields;
use crate::text_end::{Stop, TextEnd};
use call_log::{Layout, close_record, kind_named, open_record, put_end, put_header};
use std::alloc::Global;
use text_words::{behind, cut, next_line, u16_to};

const FIRST_LINE: [u8; 6] = *b"d3l1 1";

const END: [u8; 3] = *b"end";

/// The log of a text of fewer than 2^32 bytes: its records' bytes, in order; or the first line that stands where it
/// may not, from 1. A text that stops early is bad at the line that would come next.
pub fn asm(alloc: Global, text: &[u8]) -> Result<Vec<u8>, TextEnd>
    requires { length text.now < 2 ^ 32 }
    ensures log { IfOk result (λ log. LogText text.now log.items) }
    ensures bad { IfErr result (λ e. BadOnly text.now e) }
{
    let Some((first, lines)) = next_line(text) else {
        return Err(TextEnd::Bad { line: 1 });
    };
    if first != FIRST_LINE.as_slice() {
        return Err(TextEnd::Bad { line: 1 });
    }
    let mut log = Vec::new(alloc);
    put_header(&mut log)?;
    let mut rest = lines;
    let mut number = 2;
    'lines: loop {
        let Some((line, after)) = next_line(rest) else {
            return Err(TextEnd::Bad { line: number });
        };
        if line == END.as_slice() {
            if !after.is_empty() {
                return Err(TextEnd::Bad { line: number + 1 });
            }
            put_end(&mut log)?;
            return Ok(log);
        }
        match put_line(&mut log, line) {
            Ok(()) => (),
            Err(Stop::Bad) => return Err(TextEnd::Bad { line: number }),
            Err(Stop::NoMemory) => return Err(TextEnd::NoMemory),
        }
        rest = after;
        number += 1;
    }
}

// Puts the record of a line behind a log. The line stands without its line feed.
fn put_line(log: &mut Vec<u8>, text: &[u8]) -> Result<(), Stop>
    requires { length text.now < 2 ^ 32 }
    ensures found { OnOk result (ReadsLine text.now log.old.items log.new.items) }
    ensures bad { IfErr result (λ e. WhenBad e ((f : Frame) → IsRecord f → text.now ≡ bare_line f → ⊥)) }
{
    let Some((context, rest)) = u16_to(b' ', text) else {
        return Err(Stop::Bad);
    };
    let Some(rest) = behind(b' ', rest) else {
        return Err(Stop::Bad);
    };
    let (name, fields) = cut(rest, b' ');
    let Some(kind) = kind_named(name) else {
        return Err(Stop::Bad);
    };
    put_record(log, kind.number, context, kind.layout, fields)
}

// Puts the record of a kind that has these fields behind a log. Its body is read in place, so it stands nowhere else.
fn put_record(
    log: &mut Vec<u8>,
    kind: u16,
    context: u16,
    layout: Layout,
    fields: &[u8],
) -> Result<(), Stop>
    requires stops { StopsAt 32 fields.now }
    requires small { length fields.now < 2 ^ 32 }
    ensures found { OnOk result (PutsRecord kind context layout fields.now log.old.items log.new.items) }
    ensures bad { IfErr result (λ e. WhenBad e ((b : List ℕ) → HasLayout layout b → fields.now ≡ form_fields layout b → ⊥)) }
{
    let from = open_record(log, kind, context)?;
    read_fields(layout, fields, log)?;
    close_record(log, from);
    Ok(())
}
