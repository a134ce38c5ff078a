ghost use Rattle.std.specs.Prelude.{◌≡◌, IfOk};
ghost use Rattle.call_log.specs.View.{call_view};
ghost use Rattle.d3d_model.specs.D3dState.{count_of};
ghost use Rattle.base_lemmas.specs.IdMap as ids;
ghost use Rattle.d3d_model.specs.Past.{Past};
ghost use Rattle.d3d_model.specs.ReplyText.{answer, query_value, sort_if};
ghost use Rattle.d3d_state.specs.Meaning.{objects_of};
ghost use Rattle.d3d_memory.specs.Meeting.{met_by};

use crate::Memory;
use call_log::Call;
use d3d_state::{Objects, Sort};
use dx_types::{ByteList, CallNo, Reply};
use std::alloc::{AllocError, Global};

/// What a query answers: an event has happened, occlusion is 0 without draws, statistics are the invocations counted.
fn value(memory: &Memory, objects: &Objects<'_>, query: u32) -> u64
    ensures { result ≡ query_value (sort_if (ids.get (objects_of objects.now).queries query)) (count_of memory.now query) }
{
    let Some(asked) = objects.query(query) else {
        return 1;
    };
    match asked.sort {
        Sort::Event => 1,
        Sort::PipelineStatistics => memory.count(query),
        Sort::Occlusion | Sort::OcclusionPredicate => 0,
    }
}

/// The answer to an accepted call n, if it has one: of a readback the bytes, of a query its value.
pub fn answer(
    alloc: Global,
    n: CallNo,
    memory: &Memory,
    objects: &Objects<'_>,
    call: &Call<'_>,
) -> Result<Option<Reply>, AllocError>
    ensures { (past : Past) → IfOk result (λ reply. reply ≡ answer n (met_by (objects_of objects.now) memory.now past) (call_view call.now)) }
{
    match call {
        Call::MapRead {
            res,
            offset,
            length,
            ..
        } => {
            let bytes = memory.read(alloc, *res, *offset, *length)?;
            Ok(Some(Reply::Bytes {
                n,
                bytes: ByteList::new(bytes),
            }))
        }
        Call::GetData { query, .. } => Ok(Some(Reply::Value {
            n,
            value: value(memory, objects, *query),
        })),
        _ => Ok(None),
    }
}
