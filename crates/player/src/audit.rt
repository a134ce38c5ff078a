//! The command `audit`.

ghost use Rattle.std.specs.Prelude.{◌≡◌, ◌≤◌, ◌++◌, OnOk, IfOk, length};
ghost use Rattle.std.specs.String.{string_bytes};
ghost use Rattle.dx_io.specs.Faults.{Rose};
ghost use Rattle.player.specs.AuditLines.{hazard_line, order_end_line, verdict_line, report_text};
ghost use Rattle.player.specs.Outcome.{CameOf};

use crate::command::Command;
use crate::status::Status;
use crate::top::write;
use dx_io::Sink;
use dx_types::limits::MAX_INPUT;
use list_audit::{AuditEnd, Report, audit};
use std::alloc::{AllocError, Global};
use vk_order::OrderEnd;

/// Writes the report on a listing's text.
pub(crate) fn audit_bytes<K: Sink>(alloc: Global, text: &[u8], out: &mut K) -> Status
    requires { length text.now ≤ MAX_INPUT }
    ensures outcome { CameOf Command.Audit text.now (K.held out.old) result (K.held out.new) }
    ensures write_fault { result ≡ Status.WriteFault → Rose (K.faults out.old) (K.faults out.new) }
    ensures write_later { K.faults out.old ≤ K.faults out.new }
{
    match audit(alloc, text) {
        Ok(report) => match report_text(alloc, &report) {
            Ok(lines) => write(out, lines.as_bytes()),
            Err(_) => Status::NoMemory,
        },
        Err(AuditEnd::Bad { line }) => Status::BadText { line },
        Err(AuditEnd::NoMemory) => Status::NoMemory,
    }
}

// The lines of a report.
fn report_text(alloc: Global, report: &Report) -> Result<String, AllocError>
    ensures { IfOk result (λ text. string_bytes text ≡ report_text report.now) }
{
    let mut text = String::new(alloc);
    push_hazard(&mut text, report)?;
    push_verdict(&mut text, &report.order)?;
    Ok(text)
}

fn push_hazard(text: &mut String, report: &Report) -> Result<(), AllocError>
    ensures { OnOk result (string_bytes text.new ≡ string_bytes text.old ++ hazard_line report.now.pair report.now.shared) }
{
    match (report.pair, report.shared) {
        (None, _) => writeln!(text, "covered"),
        (Some(pair), Some(range)) => writeln!(
            text,
            "uncovered {} {} b{}:{}-{}",
            pair.first, pair.second, range.block, range.from, range.to
        ),
        (Some(_), None) => Ok(()),
    }
}

fn push_verdict(text: &mut String, verdict: &Option<Result<(), OrderEnd>>) -> Result<(), AllocError>
    ensures { OnOk result (string_bytes text.new ≡ string_bytes text.old ++ verdict_line verdict.now) }
{
    match verdict {
        None => Ok(()),
        Some(Ok(())) => writeln!(text, "allowed"),
        Some(Err(end)) => push_order_end(text, end),
    }
}

fn push_order_end(text: &mut String, end: &OrderEnd) -> Result<(), AllocError>
    ensures { OnOk result (string_bytes text.new ≡ string_bytes text.old ++ order_end_line end.now) }
{
    match end {
        OrderEnd::NotAll { at } => writeln!(text, "not-all {at}"),
        OrderEnd::Broken { first, second } => writeln!(text, "broken {first} {second}"),
    }
}
