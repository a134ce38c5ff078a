ghost use Rattle.std.specs.Prelude.{◌≡◌, ◌∷◌, [], not};
ghost use Rattle.call_log.specs.Call as calls;
ghost use Rattle.d3d_checks.specs.Asked.{refusal_of};
ghost use Rattle.d3d_checks.specs.NewViews.{checks_by, view_call};
ghost use Rattle.d3d_model.specs.Check.{first_failed};
ghost use Rattle.d3d_model.specs.Past.{Past};
ghost use Rattle.d3d_model.specs.Resource.{usage_from};
ghost use Rattle.d3d_model.specs.Verdict.{is_wrong_data, is_wrong_usage};
ghost use Rattle.d3d_resources.specs.Creation.{creation_checks};
ghost use Rattle.d3d_views.specs.Creation.{is_wrong_form};
ghost use Rattle.d3d_state.specs.Meaning.{objects_of};

use crate::lists::known_refusal;
use crate::new_view::{NewView, described};
use d3d_model::ObjectClass;
use d3d_model::codes::{
    IMMUTABLE_USAGE, RAW_FORM, STAGING_USAGE, STRUCTURED_FORM, TYPED_FORM, WRITE_VIEW,
};
use d3d_resources::is_id;
use d3d_state::Objects;
use d3d_views::{lacks_bind, view_span};
use dx_types::{Refusal, Shape};

/// Whether no usage has this number, or an immutable buffer would have no data.
fn is_wrong_usage(usage: u32, bytes: &[u8]) -> bool
    ensures { result ≡ is_wrong_usage usage bytes.now }
{
    usage > STAGING_USAGE || (usage == IMMUTABLE_USAGE && bytes.is_empty())
}

/// Whether there is data, of another length than the buffer's.
fn is_wrong_data(size: u64, bytes: &[u8]) -> bool
    ensures { result ≡ is_wrong_data size bytes.now }
{
    !bytes.is_empty() && bytes.len() as u64 != size
}

/// Why a buffer is not created. `usage` is its usage's number, and `bytes` the data that it begins with, if it has some.
pub(crate) fn buffer_refusal(
    objects: &Objects<'_>,
    id: u32,
    usage: u32,
    shape: &Shape,
    bytes: &[u8],
) -> Option<Refusal>
    requires { shape.now.usage ≡ usage_from usage }
    ensures { result ≡ first_failed (creation_checks (objects_of objects.now).buffers id shape.now.size usage
        shape.now.bind shape.now.misc shape.now.stride bytes.now) }
{
    if !is_id(id) {
        Some(Refusal::OutOfRange)
    } else if objects.buffer(id).is_some() {
        Some(Refusal::IdInUse)
    } else if is_wrong_usage(usage, bytes) {
        Some(Refusal::BadUsage)
    } else if is_wrong_data(shape.size, bytes) {
        Some(Refusal::BadSize)
    } else {
        objects.buffer_refusal(id, shape)
    }
}

/// Why a view is not created.
pub(crate) fn view_refusal(objects: &Objects<'_>, ask: &NewView) -> Option<Refusal>
    ensures { (past : Past) → result ≡ refusal_of (objects_of objects.now) past (view_call ask.now) }
{
    if !is_id(ask.view) {
        return Some(Refusal::OutOfRange);
    }
    let Some(shape) = objects.buffer(ask.res) else {
        return Some(Refusal::UnknownId);
    };
    if objects.view(ask.view).is_some() {
        return Some(Refusal::IdInUse);
    }
    shape_refusal(&shape, ask)
}

/// Why a view is not created on a buffer of this shape.
fn shape_refusal(shape: &Shape, ask: &NewView) -> Option<Refusal>
    ensures { result ≡ first_failed (checks_by shape.now ask.now) }
{
    if ask.kind > WRITE_VIEW {
        return Some(Refusal::BadBind);
    }
    if is_wrong_form(ask.form, ask.components) {
        return Some(if lacks_bind(shape, ask.kind == WRITE_VIEW) {
            Refusal::BadBind
        } else {
            Refusal::BadFormat
        });
    }
    match view_span(shape, &described(shape, ask)) {
        Ok(_) => None,
        Err(why) => Some(why),
    }
}

/// Whether no form has this number, or the components don't go with it: a typed element has 1, 2 or 4.
fn is_wrong_form(form: u32, components: u32) -> bool
    ensures { result ≡ is_wrong_form form components }
{
    match form {
        RAW_FORM | STRUCTURED_FORM => components != 0,
        TYPED_FORM => !matches!(components, 1 | 2 | 4),
        _ => true,
    }
}

/// Why an object is not destroyed.
pub(crate) fn destroy_refusal(objects: &Objects<'_>, class: u32, id: u32) -> Option<Refusal>
    ensures { (past : Past) → result ≡ refusal_of (objects_of objects.now) past (calls.Destroy class id) }
{
    let Some(class) = ObjectClass::from_number(class) else {
        return Some(Refusal::BadUsage);
    };
    match class {
        ObjectClass::Buffer => refusal_if(objects.buffer(id).is_some(), objects.uses_buffer(id)),
        ObjectClass::View => refusal_if(objects.view(id).is_some(), objects.uses_view(id)),
        ObjectClass::Shader => refusal_if(objects.shader(id).is_some(), objects.uses_shader(id)),
        ObjectClass::Query => refusal_if(objects.query(id).is_some(), objects.uses_query(id)),
        ObjectClass::List => known_refusal(objects, id),
    }
}

/// Why an object is not destroyed, by whether it is live, and whether it is in use.
fn refusal_if(live: bool, used: bool) -> Option<Refusal>
    ensures { result ≡ first_failed ((not live, Refusal.UnknownId) ∷ (used, Refusal.IdInUse) ∷ []) }
{
    if !live {
        Some(Refusal::UnknownId)
    } else if used {
        Some(Refusal::IdInUse)
    } else {
        None
    }
}
