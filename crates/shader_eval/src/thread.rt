// Which invocation runs, and how it names itself.

ghost use Rattle.std.specs.Prelude.{◌≡◌, ◌<◌, slice_index};
ghost use Rattle.shader_model.specs.Invocation.{flattened, global};
ghost use Rattle.shader_eval.specs.Lanes.{lanes};
ghost use Rattle.shader_eval.specs.Threads.{IsThread};

use shader_model::Ids;
use std::marker::Model;

/// The place of an invocation within the limits of a dispatch. A clause sees its ids.
#[derive(Drop)]
pub struct Thread {
    ids: Ids,
}

impl Model for Thread {
    ghost use Rattle.shader_model.specs.declared.ids.Ids.{Ids};
    ghost use Rattle.shader_eval.specs.Threads.{IsThread};

    ghost Value = { Ids };

    ghost view = { λ t. t.ids };

    ghost invariant = { λ t. IsThread t.ids };
}

impl Thread {
    pub fn new(ids: Ids) -> Thread
        requires { IsThread ids }
        ensures { result ≡ ids }
    {
        Thread { ids }
    }

    /// Its place in the dispatch, with 0 as w.
    pub fn global(&self) -> [u32; 4]
        ensures { result ≡ lanes (global self.now) }
    {
        let [x, y, z] = self.ids.group;
        let [width, height, depth] = self.ids.size;
        let [across, down, deep] = self.ids.thread;
        [x * width + across, y * height + down, z * depth + deep, 0]
    }

    /// Its group's place in the dispatch, with 0 as w.
    pub fn group(&self) -> [u32; 4]
        ensures { result ≡ lanes (λ c. slice_index self.now.group c) }
    {
        [self.ids.group[0], self.ids.group[1], self.ids.group[2], 0]
    }

    /// Its place in its group, with 0 as w.
    pub fn place(&self) -> [u32; 4]
        ensures { result ≡ lanes (λ c. slice_index self.now.thread c) }
    {
        [
            self.ids.thread[0],
            self.ids.thread[1],
            self.ids.thread[2],
            0,
        ]
    }

    /// Its place in its group, counted through all.
    pub fn flattened(&self) -> u32
        ensures { result ≡ flattened self.now }
    {
        let [x, y, z] = self.ids.thread;
        let [width, height, _] = self.ids.size;
        x + width * (y + height * z)
    }
}
