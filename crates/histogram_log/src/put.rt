//! The calls of a histogram, put behind one another.

ghost use Rattle.std.specs.Prelude.{◌≡◌, ◌<◌, ◌≤◌, ◌++◌, [], ◌∷◌, length, map, OnOk};
ghost use Rattle.std.specs.List.{AllByRecursion};
ghost use Rattle.call_log.specs.Call.{MapWrite, Update};
ghost use Rattle.call_log.specs.Put.{spell_words, IsPuttable};
ghost use Rattle.call_log.specs.View.{call_view};
ghost use Rattle.dx_types.specs.declared.limits.TheConstants.{MAX_ROUNDS};
ghost use Rattle.histogram_log.specs.Histogram.{opening, resources, shader_tokens, program, discard, update};
ghost use Rattle.histogram_log.specs.Histogram.{poll, round, rounds, closing};
ghost use Rattle.histogram_log.specs.Logged.{spelled};

use crate::words::{bytes_of, input_bytes, shader_bytes};
use call_log::{Call, put_call};
use std::alloc::{AllocError, Global};

/// Puts what stands before the rounds: the resources, the shader, and what is set.
pub(crate) fn put_opening(alloc: Global, log: &mut Vec<u8>) -> Result<(), AllocError>
    ensures { OnOk result (log.new.items ≡ log.old.items ++ spelled opening) }
{
    let tokens = shader_bytes(alloc)?;
    put_resources(log)?;
    put_bindings(log, &tokens)
}

/// Puts the calls of so many rounds.
pub(crate) fn put_rounds(alloc: Global, log: &mut Vec<u8>, count: u32) -> Result<(), AllocError>
    requires { count ≤ MAX_ROUNDS }
    ensures { OnOk result (log.new.items ≡ log.old.items ++ spelled (rounds count)) }
{
    'rounds: for i in 0..count {
        put_round(alloc, log, i + 1)?;
    }
    Ok(())
}

/// Puts the readback of all counters.
pub(crate) fn put_closing(log: &mut Vec<u8>) -> Result<(), AllocError>
    ensures { OnOk result (log.new.items ≡ log.old.items ++ spelled closing) }
{
    put_calls(
        log,
        &[
            Call::Copy {
                target: 3,
                source: 1,
            },
            Call::MapRead {
                res: 3,
                flag: 0,
                offset: 0,
                length: 1024,
            },
        ],
    )
}

fn put_resources(log: &mut Vec<u8>) -> Result<(), AllocError>
    ensures { OnOk result (log.new.items ≡ log.old.items ++ spelled resources) }
{
    put_calls(
        log,
        &[
            Call::Buffer {
                id: 1,
                size: 1024,
                usage: 0,
                bind: 4,
                misc: 1,
                stride: 0,
                bytes: &[],
            },
            Call::Buffer {
                id: 2,
                size: 256,
                usage: 2,
                bind: 2,
                misc: 1,
                stride: 0,
                bytes: &[],
            },
            Call::Buffer {
                id: 3,
                size: 1024,
                usage: 3,
                bind: 0,
                misc: 0,
                stride: 0,
                bytes: &[],
            },
            Call::Buffer {
                id: 4,
                size: 16,
                usage: 0,
                bind: 1,
                misc: 0,
                stride: 0,
                bytes: &[],
            },
            Call::View {
                view: 1,
                res: 1,
                kind: 1,
                form: 0,
                components: 0,
                first: 0,
                count: 256,
            },
            Call::View {
                view: 2,
                res: 2,
                kind: 0,
                form: 0,
                components: 0,
                first: 0,
                count: 64,
            },
        ],
    )
}

fn put_bindings(log: &mut Vec<u8>, tokens: &[u8]) -> Result<(), AllocError>
    requires { tokens.now ≡ spell_words shader_tokens }
    ensures { OnOk result (log.new.items ≡ log.old.items ++ spelled program) }
{
    put_calls(
        log,
        &[
            Call::CreateShader {
                id: 1,
                words: tokens,
            },
            Call::SetShader { id: 1 },
            Call::SetConstant { slot: 0, res: 4 },
            Call::SetSrv { slot: 0, view: 2 },
            Call::SetUav { slot: 0, view: 1 },
        ],
    )
}

fn put_round(alloc: Global, log: &mut Vec<u8>, i: u32) -> Result<(), AllocError>
    requires { i ≤ MAX_ROUNDS }
    ensures { OnOk result (log.new.items ≡ log.old.items ++ spelled (round i)) }
{
    put_discard(alloc, log, i)?;
    put_update(alloc, log, i)?;
    put_calls(log, &[Call::Dispatch { x: 1, y: 1, z: 1 }])?;
    put_poll(log, i)
}

fn put_discard(alloc: Global, log: &mut Vec<u8>, i: u32) -> Result<(), AllocError>
    requires { i ≤ MAX_ROUNDS }
    ensures { OnOk result (log.new.items ≡ log.old.items ++ spelled (discard i)) }
{
    if i % 4 != 1 {
        return Ok(());
    }
    let bytes = input_bytes(alloc, i)?;
    put_values(log, &bytes)
}

fn put_values(log: &mut Vec<u8>, bytes: &[u8]) -> Result<(), AllocError>
    requires { length bytes.now < 65536 }
    ensures { OnOk result (log.new.items ≡ log.old.items ++ spelled (MapWrite 2 0 0 bytes.now ∷ [])) }
{
    put_calls(
        log,
        &[Call::MapWrite {
            res: 2,
            mode: 0,
            offset: 0,
            bytes,
        }],
    )
}

fn put_update(alloc: Global, log: &mut Vec<u8>, i: u32) -> Result<(), AllocError>
    ensures { OnOk result (log.new.items ≡ log.old.items ++ spelled (update i)) }
{
    if i % 3 != 0 {
        return Ok(());
    }
    let bytes = bytes_of(alloc, &[i, 0, 0, 0])?;
    put_constant(log, &bytes)
}

fn put_constant(log: &mut Vec<u8>, bytes: &[u8]) -> Result<(), AllocError>
    requires { length bytes.now < 65536 }
    ensures { OnOk result (log.new.items ≡ log.old.items ++ spelled (Update 4 0 bytes.now ∷ [])) }
{
    put_calls(
        log,
        &[Call::Update {
            res: 4,
            offset: 0,
            bytes,
        }],
    )
}

fn put_poll(log: &mut Vec<u8>, i: u32) -> Result<(), AllocError>
    ensures { OnOk result (log.new.items ≡ log.old.items ++ spelled (poll i)) }
{
    if i % 10 != 0 {
        return Ok(());
    }
    put_calls(
        log,
        &[
            Call::Copy {
                target: 3,
                source: 1,
            },
            Call::MapRead {
                res: 3,
                flag: 1,
                offset: 0,
                length: 1024,
            },
        ],
    )
}

fn put_calls(log: &mut Vec<u8>, calls: &[Call<'_>]) -> Result<(), AllocError>
    requires { AllByRecursion IsPuttable (map call_view calls.now) }
    ensures { OnOk result (log.new.items ≡ log.old.items ++ spelled (map call_view calls.now)) }
{
    'calls: for call in calls {
        put_call(log, 0, call)?;
    }
    Ok(())
}
