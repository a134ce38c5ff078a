ghost use Rattle.std.specs.Prelude.{◌≡◌, ◌==◌, [], ℕ, List, OnOk};
ghost use Rattle.dx_types.specs.declared.range.Span.{Span};
ghost use Rattle.vk_types.specs.declared.message.Placed.{Placed};
ghost use Rattle.base_lemmas.specs.IdMap as ids;
ghost use Rattle.core_model.specs.Batching.{Made, make_play};
ghost use Rattle.core_model.specs.Script.{Script};
ghost use Rattle.d3d_state.specs.Meaning.{objects_of};
ghost use Rattle.log_script.specs.Plays.{counts_invocations, marks};
ghost use Rattle.item_make.specs.Making.{Makes};

use batch_make::{Parts, Stream};
use d3d_state::{Objects, Query, Sort};
use dx_types::CallNo;
use std::alloc::AllocError;

// Whether it counts invocations: it is one of pipeline statistics.
fn is_counting(query: &Query) -> bool
    ensures { result ≡ (query.now.sort == 2) }
{
    matches!(query.sort, Sort::PipelineStatistics)
}

// Whether a live query counts invocations.
fn counts_invocations(objects: &Objects, query: u32) -> bool
    ensures { result ≡ counts_invocations (ids.get (objects_of objects.now).queries query) }
{
    match objects.query(query) {
        Some(query) => is_counting(&query),
        None => false,
    }
}

/// A Begin or an End of a query, which stands before the next command. Queries of other sorts than pipeline statistics
/// count nothing, and make nothing.
pub fn mark_query(
    stream: &Stream,
    parts: &mut Parts,
    objects: &Objects,
    call: CallNo,
    query: u32,
    begins: bool,
) -> Result<(), AllocError>
    ensures { OnOk result ((part : Span → List ℕ) (script : Script) (p : Placed) (m : Made)
        → Makes part m stream.now parts.old
        → Makes part (make_play script call (marks (objects_of objects.now) query begins) [] p m)
        stream.now parts.new) }
{
    if counts_invocations(objects, query) {
        return stream.mark_query(parts, call, query, begins);
    }
    Ok(())
}
