// Changes of the live objects. Where what a change asks for doesn't hold, nothing is done, and the test fails or is told.
use d3d_state::{LiveShader, Objects, Setting};
use dx_types::{CallNo, Form, Shape, ViewShape};
use std::alloc::Global;
use std::test::Fail;

// Creates a buffer where that may be, and says whether it was.
pub(crate) fn add_buffer(objects: &mut Objects<'_>, id: u32, shape: Shape) -> Result<bool, Fail> {
    if objects.buffer_refusal(id, &shape).is_some() {
        return Ok(false);
    }
    objects.create_buffer(id, shape)?;
    Ok(true)
}

// A view of the first four words of a buffer.
pub(crate) fn four_words(res: u32, writable: bool) -> ViewShape {
    ViewShape {
        res,
        writable,
        form: Form::Raw,
        unit: 4,
        first: 0,
        count: 4,
    }
}

// Creates a view of the first four words of a buffer where its id is free, and says whether it was.
pub(crate) fn add_view(
    objects: &mut Objects<'_>,
    id: u32,
    res: u32,
    writable: bool,
) -> Result<bool, Fail> {
    let shape = four_words(res, writable);
    if objects.view(id).is_some() || shape.unit != 4 || shape.first != 0 || shape.count != 4 {
        return Ok(false);
    }
    objects.create_view(id, shape)?;
    Ok(true)
}

// Creates the shader of these token bytes, as this call does.
pub(crate) fn add_shader(
    alloc: Global,
    objects: &mut Objects<'_>,
    id: u32,
    call: CallNo,
    words: &[u8],
) -> Result<(), Fail> {
    let shader = LiveShader::decode(alloc, call, words)?.ok_or("good words")?;
    objects.create_shader(id, shader)?;
    Ok(())
}

pub(crate) fn set_constant(objects: &mut Objects<'_>, slot: u32, res: u32) -> Result<(), Fail> {
    if slot >= 14 {
        return Err(Fail::from("no constant slot"));
    }
    objects.set(0, Setting::Constant { slot, res });
    Ok(())
}

pub(crate) fn set_srv(objects: &mut Objects<'_>, slot: u32, view: u32) -> Result<(), Fail> {
    if slot >= 16 {
        return Err(Fail::from("no shader resource slot"));
    }
    let view = objects.bound_view(view);
    objects.set(0, Setting::Srv { slot, view });
    Ok(())
}

pub(crate) fn set_uav(objects: &mut Objects<'_>, slot: u32, view: u32) -> Result<(), Fail> {
    if slot >= 8 {
        return Err(Fail::from("no unordered access slot"));
    }
    let view = objects.bound_view(view);
    objects.set(0, Setting::Uav { slot, view });
    Ok(())
}
