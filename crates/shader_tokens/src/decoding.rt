// From bytes to a shader.

ghost use Rattle.std.specs.Prelude.{◌≡◌, ◌≤◌, [], Some, None, List, ℕ, length, IfOk};
ghost use Rattle.base_lemmas.specs.ByteWords.{words_of};
ghost use Rattle.shader_model.specs.Items.{items_of, items_from};
ghost use Rattle.shader_model.specs.Faults.{items_fault, first_bad_of_bytes};
ghost use Rattle.shader_model.specs.Shader.{program_of, shader_of};
ghost use Rattle.shader_tokens.specs.Decoding.{IfBad, Reads, torn, header_fault_of};

use crate::end::ShaderEnd;
use crate::item::{Item, count};
use crate::levels::Levels;
use crate::reader::Reader;
use crate::rules::fault;
use crate::words::{behind, front, len, word};
use dx_types::limits::MAX_SHADER_WORDS;
use shader_model::{Shader, ShaderFault, ShaderKind};
use sqlite_items::Items;
use std::alloc::Global;

/// Whether these bytes are no whole words, or fewer than two.
fn is_torn(bytes: &[u8]) -> bool
    ensures { result ≡ torn bytes.now }
{
    bytes.len() % 4 != 0 || bytes.len() < 8
}

/// The first rule of the number of bytes and of the first two words that is broken.
fn header_fault(bytes: &[u8]) -> Option<ShaderFault>
    ensures { result ≡ header_fault_of bytes.now }
{
    if len(bytes) > MAX_SHADER_WORDS {
        Some(fault(0, ShaderKind::TooLong))
    } else if is_torn(bytes) {
        Some(fault(0, ShaderKind::Length))
    } else if word(bytes, 0) != 1 {
        Some(fault(0, ShaderKind::Length))
    } else if word(bytes, 1) as usize != len(bytes) {
        Some(fault(1, ShaderKind::Length))
    } else if len(bytes) == 2 {
        Some(fault(2, ShaderKind::Group))
    } else {
        None
    }
}

/// The shader that bytes are, or the first bad word, counted from 0, with the first rule in the order of the kinds
/// that it breaks.
pub fn decode(alloc: Global, bytes: &[u8]) -> Result<Shader, ShaderEnd>
    ensures good { IfOk result (λ tree. shader_of bytes.now ≡ Some (program_of tree)) }
    ensures bad { IfBad result (λ f. first_bad_of_bytes bytes.now ≡ Some f) }
{
    if let Some(fault) = header_fault(bytes) {
        return Err(ShaderEnd::Bad(fault));
    }
    match read_items(alloc, behind(bytes, 2)) {
        Ok(reader) => finish(bytes, reader),
        Err(end) => Err(end),
    }
}

/// All items of these words, which stand behind the first two.
fn read_items(alloc: Global, words: &[u8]) -> Result<Reader, ShaderEnd>
    requires { length (words_of words.now) ≤ 65534 }
    ensures good { IfOk result (λ reader. Reads (items_from 2 0 (words_of words.now)) reader) }
    ensures bad { IfBad result (λ f. items_fault [] (items_from 2 0 (words_of words.now)) ≡ Some f) }
{
    let mut reader = Reader::new(alloc);
    let mut rest = words;
    let mut at: u32 = 2;
    while rest.len() >= 4 {
        let first = word(rest, 0);
        let next = behind(rest, 1);
        let more = front(next, count(first).saturating_sub(1));
        if let Err(end) = reader.item(alloc, &Item { at, first, more }) {
            return Err(end);
        }
        at = at + 1 + len(more) as u32;
        rest = behind(next, len(more));
    }
    Ok(reader)
}

/// The shader of all items.
fn finish(bytes: &[u8], reader: Reader) -> Result<Shader, ShaderEnd>
    requires header { header_fault_of bytes.now ≡ None }
    requires read { Reads (items_of (words_of bytes.now)) reader }
    ensures good { IfOk result (λ tree. shader_of bytes.now ≡ Some (program_of tree)) }
    ensures bad { IfBad result (λ f. first_bad_of_bytes bytes.now ≡ Some f) }
{
    let temps = reader.temps.unwrap_or(0);
    let Reader {
        declared,
        levels,
        ..
    } = reader;
    let Levels { levels, nodes } = levels;
    if !levels.is_empty() {
        return Err(ShaderEnd::Bad(fault(1, ShaderKind::Nesting)));
    }
    let group = [word(bytes, 3), word(bytes, 4), word(bytes, 5)];
    Ok(Shader::new(group, temps, declared, Items::from_vec(nodes)))
}
