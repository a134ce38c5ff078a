// Which invocation runs, and how built-ins show it.

ghost use Rattle.std.specs.Prelude.{◌≡◌, option_map, Some};
ghost use Rattle.shader_model.specs.Invocation.{flattened, global};
ghost use Rattle.spirv_model.specs.Meaning.Values.{Vector};
ghost use Rattle.spirv_model.specs.Meaning.Memory.{built_in};
ghost use Rattle.spirv_run.specs.Held.{shown};
ghost use Rattle.spirv_run.specs.Threads.{IsPlaced};

use crate::value::Value;
use shader_model::Ids;
use spirv_model::built_ins::{
    GLOBAL_INVOCATION_ID, LOCAL_INVOCATION_ID, LOCAL_INVOCATION_INDEX, WORKGROUP_ID,
};
use std::marker::Model;

/// The place of an invocation, none of whose numbers passes 32 bits. A clause sees its ids.
#[derive(Drop)]
pub struct Thread {
    ids: Ids,
}

impl Model for Thread {
    ghost use Rattle.shader_model.specs.declared.ids.Ids.{Ids};
    ghost use Rattle.spirv_run.specs.Threads.{IsPlaced};

    ghost Value = { Ids };

    ghost view = { λ t. t.ids };

    ghost invariant = { λ t. IsPlaced t.ids };
}

impl Thread {
    pub fn new(ids: Ids) -> Thread
        requires { IsPlaced ids }
        ensures { result ≡ ids }
    {
        Thread { ids }
    }

    /// Its place in the dispatch.
    fn global(&self) -> Value
        ensures { shown result ≡ Vector (global self.now 0) (global self.now 1) (global self.now 2) }
    {
        let [x, y, z] = self.ids.group;
        let [width, height, depth] = self.ids.size;
        let [across, down, deep] = self.ids.thread;
        Value::Vector(x * width + across, y * height + down, z * depth + deep)
    }

    /// Its place in its group, counted through all.
    fn flattened(&self) -> u32
        ensures { result ≡ flattened self.now }
    {
        let [x, y, z] = self.ids.thread;
        let [width, height, _] = self.ids.size;
        x + width * (y + height * z)
    }

    /// What a built-in shows.
    pub fn built_in(&self, number: u32) -> Option<Value>
        ensures { option_map shown result ≡ built_in self.now number }
    {
        match number {
            WORKGROUP_ID => {
                let [x, y, z] = self.ids.group;
                Some(Value::Vector(x, y, z))
            }
            LOCAL_INVOCATION_ID => {
                let [x, y, z] = self.ids.thread;
                Some(Value::Vector(x, y, z))
            }
            GLOBAL_INVOCATION_ID => Some(self.global()),
            LOCAL_INVOCATION_INDEX => Some(Value::Word(self.flattened())),
            _ => None,
        }
    }
}
