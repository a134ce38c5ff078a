// What is wrong with a word, and the first of several words that is wrong.

ghost use Rattle.std.specs.Prelude.{◌≡◌, ◌+◌, ◌<◌, ◌^◌, length};
ghost use Rattle.spirv_model.specs.declared.fault.ModuleKind.TheVariants as kinds;
ghost use Rattle.spirv_model.specs.Operands.{unless};
ghost use Rattle.spirv_model.specs.FirstBad.{first_fault};

use spirv_model::{ModuleFault, ModuleKind};

/// A word is of kind Shape where it isn't what its place takes.
pub fn shape(holds: bool) -> Option<ModuleKind>
    ensures { result ≡ unless holds kinds.Shape }
{
    if holds { None } else { Some(ModuleKind::Shape) }
}

/// The first word that is wrong, of those from this place on.
pub fn first_wrong(at: u32, verdicts: &[Option<ModuleKind>]) -> Option<ModuleFault>
    requires { at + length verdicts.now < 2 ^ 32 }
    ensures { result ≡ first_fault at verdicts.now }
{
    let mut word = at;
    let mut rest = verdicts;
    'verdicts: while let [verdict, more @ ..] = rest {
        if let Some(kind) = *verdict {
            return Some(ModuleFault { word, kind });
        }
        word += 1;
        rest = more;
    }
    None
}
