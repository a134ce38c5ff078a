ghost use Rattle.std.specs.Prelude.{◌≡◌, ◌*◌, ◌^◌, ◌<◌, ◌≤◌};
ghost use Rattle.d3d_model.specs.Memory.{elements, pattern};
ghost use Rattle.d3d_model.specs.Regions.{put, spelled};
ghost use Rattle.d3d_memory.specs.Clears.{element_words};

use crate::regions::put_repeated;
use byteorder::{ByteOrder, LittleEndian};
use dx_types::{Form, ViewShape};

/// How many words one element takes of the values of a clear: of a typed view as many as it has components, else one.
fn element_words(v: &ViewShape) -> usize
    ensures value { result ≡ element_words v.now.form v.now.unit }
    ensures most { result ≤ 4 }
{
    match v.form {
        Form::Raw | Form::Structured => 1,
        Form::Typed => (v.unit as usize / 4).min(4),
    }
}

/// How many elements a clear of a view writes.
fn elements(v: &ViewShape) -> u128
    ensures value { result ≡ elements v.now.form v.now }
    ensures most { result < 2 ^ 96 }
{
    let count = u128::from(v.count);
    match v.form {
        Form::Raw | Form::Typed => count,
        Form::Structured => count * u128::from(v.unit / 4),
    }
}

fn spell(values: &[u32; 4]) -> [u8; 16]
    ensures { result ≡ spelled values.now }
{
    let mut bytes = [0; 16];
    LittleEndian::write_u32(&mut bytes[..4], values[0]);
    LittleEndian::write_u32(&mut bytes[4..8], values[1]);
    LittleEndian::write_u32(&mut bytes[8..12], values[2]);
    LittleEndian::write_u32(&mut bytes[12..16], values[3]);
    bytes
}

/// The bytes of a buffer after a clear of a view of it.
pub(crate) fn clear(bytes: &mut [u8], v: &ViewShape, values: &[u32; 4])
    ensures { bytes.new ≡ put bytes.old (v.now.first * v.now.unit) (pattern v.now values.now) }
{
    let from = u128::from(v.first) * u128::from(v.unit);
    let spelled = spell(values);
    let element = &spelled[..4 * element_words(v)];
    put_repeated(bytes, from, elements(v), element);
}
