ghost use Rattle.std.specs.Prelude.{◌≡◌, ℕ, List, IfOk};
ghost use Rattle.call_log.specs.Call as calls;
ghost use Rattle.call_log.specs.View.{call_view};
ghost use Rattle.d3d_checks.specs.Asked.{refusal_of};
ghost use Rattle.d3d_checks.specs.Created.{shader_made};
ghost use Rattle.d3d_model.specs.Past.{Past};
ghost use Rattle.d3d_model.specs.Shader.{decodes};
ghost use Rattle.d3d_state.specs.Meaning.{objects_of};

use call_log::Call;
use d3d_resources::is_id;
use d3d_state::{LiveShader, Objects};
use dx_types::{CallNo, Refusal};
use std::alloc::{AllocError, Global};

/// The shader that call n creates: none where its token words have a bad one, or where it creates no shader.
pub fn decode_created(
    alloc: Global,
    n: CallNo,
    call: &Call<'_>,
) -> Result<Option<LiveShader>, AllocError>
    ensures { IfOk result (λ shader. shader ≡ shader_made n (call_view call.now)) }
{
    match *call {
        Call::CreateShader { words, .. } => LiveShader::decode(alloc, n, words),
        _ => Ok(None),
    }
}

/// Why a shader is not created. `spells` says whether its token words spell one.
pub(crate) fn creation_refusal(objects: &Objects<'_>, id: u32, spells: bool) -> Option<Refusal>
    ensures { (past : Past) (words : List ℕ) → spells ≡ decodes words
        → result ≡ refusal_of (objects_of objects.now) past (calls.CreateShader id words) }
{
    if !is_id(id) {
        Some(Refusal::OutOfRange)
    } else if objects.shader(id).is_some() {
        Some(Refusal::IdInUse)
    } else if !spells {
        Some(Refusal::BadShader)
    } else {
        None
    }
}

/// Why a shader is not set: no shader with this id is live. Id 0 sets none.
pub(crate) fn shader_refusal(objects: &Objects<'_>, id: u32) -> Option<Refusal>
    ensures { (past : Past) → result ≡ refusal_of (objects_of objects.now) past (calls.SetShader id) }
{
    if id > 0 && objects.shader(id).is_none() {
        Some(Refusal::UnknownId)
    } else {
        None
    }
}
