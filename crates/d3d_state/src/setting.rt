ghost use Rattle.std.specs.Prelude.{◌≡◌};
ghost use Rattle.d3d_state.specs.Setting.{Fits, set_to};

use d3d_views::{Bindings, BoundView, Predicate};

/// What a call sets on a context.
#[derive(Clone, Copy)]
pub enum Setting {
    /// A shader by its id; 0 for none.
    Shader(u32),
    /// A buffer in a constant slot, from 0 to 13, by its id; 0 empties it.
    Constant { slot: u32, res: u32 },
    /// A view in a shader resource slot, from 0 to 15.
    Srv { slot: u32, view: Option<BoundView> },
    /// A view in an unordered access slot, from 0 to 7.
    Uav { slot: u32, view: Option<BoundView> },
    /// The predicate of the calls that are predicated.
    Predicate(Predicate),
    /// No shader, empty slots, no predication.
    Default,
}

pub(crate) fn set_one(bindings: &mut Bindings, setting: Setting)
    requires { Fits setting }
    ensures { bindings.new ≡ set_to bindings.old setting }
{
    match setting {
        Setting::Shader(id) => bindings.set_shader(id),
        Setting::Constant { slot, res } => bindings.set_constant(slot as usize, res),
        Setting::Srv { slot, view } => bindings.set_srv(slot as usize, view),
        Setting::Uav { slot, view } => bindings.set_uav(slot as usize, view),
        Setting::Predicate(predicate) => bindings.set_predicate(predicate),
        Setting::Default => bindings.clear(),
    }
}
