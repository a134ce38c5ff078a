// The header of a module.

ghost use Rattle.std.specs.Prelude.{◌≡◌};
ghost use Rattle.spirv_model.specs.FirstBad.{takes_header_word, has_header_word, header_places, header_fault};
ghost use Rattle.spirv_model.specs.Words.{header};

use spirv_model::header::{GENERATOR, MAGIC_NUMBER, SCHEMA, VERSION};
use spirv_model::{ModuleFault, ModuleKind};

/// Whether the header may have this word at a place: the magic number, the version, the generator, any bound, and
/// the schema.
fn takes_word(at: u32, word: u32) -> bool
    ensures { result ≡ takes_header_word at word }
{
    match at {
        0 => word == MAGIC_NUMBER,
        1 => word == VERSION,
        2 => word == GENERATOR,
        3 => true,
        _ => word == SCHEMA,
    }
}

fn has_word(words: &[u32], at: u32) -> bool
    ensures { result ≡ has_header_word words.now at }
{
    (at as usize) < words.len() && takes_word(at, words[at as usize])
}

const PLACES: [u32; 5] = [0, 1, 2, 3, 4];

/// The places of the header's words.
fn places() -> &'static [u32]
    ensures { result.now ≡ header_places }
{
    &PLACES
}

/// The first word of the header that is missing or wrong.
#[tactic(auto, unfolding(spirv_model::specs::FirstBad::header_fault))]
pub fn find_header_fault(words: &[u32]) -> Option<ModuleFault>
    ensures { result ≡ header_fault words.now }
{
    places()
        .iter()
        .find(|at| !has_word(words, **at))
        .map(|at| ModuleFault {
            word: *at,
            kind: ModuleKind::Header,
        })
}

/// The header of a module with this bound.
pub fn header(bound: u32) -> [u32; 5]
    ensures { result ≡ header bound }
{
    [MAGIC_NUMBER, VERSION, GENERATOR, bound, SCHEMA]
}
