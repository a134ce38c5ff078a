//! The tracker of the commands since the last barrier.

ghost use Rattle.std.specs.Prelude.{◌≡◌, ◌≤◌, List, [], OnOk, Some, length};
ghost use Rattle.vk_types.specs.declared.command.Command.{Command};
ghost use Rattle.vk_types.specs.Hazards.{touches};
ghost use Rattle.vk_types.specs.BarrierCauses.{barrier_before, recent_after};
ghost use Rattle.barrier_track.specs.Since.{IsSince, cause_of};

use crate::stages::Uses;
use crate::touches::Touches;
use std::alloc::{AllocError, Global};
use std::marker::Model;
use vk_types::{Access, Barrier, Command, Mask};

/// What the commands since the last barrier touched, and at which stages.
///
/// A touch costs a logarithm of all that is kept, whether it is asked for or added, over all calls together. A barrier
/// costs the touches that it drops, each of which is compared with its command's.
#[derive(Drop)]
pub struct Tracker {
    touches: Touches,
    uses: Uses,
}

impl Model for Tracker {
    ghost use Rattle.barrier_track.specs.Tracked.{Tracked};

    ghost Value = { Tracked };

    ghost view = { λ t. record { seen = t.touches.seen; uses = t.uses; room = t.touches.room } };
}

impl Tracker {
    /// No command was listed yet.
    pub fn new(alloc: Global) -> Tracker
        ensures { IsSince result [] }
    {
        Tracker {
            touches: Touches::new(alloc),
            uses: Uses::none(),
        }
    }

    /// Makes room for what the command touches. A lack of memory changes nothing.
    pub fn reserve(&mut self, c: &Command) -> Result<(), AllocError>
        ensures room { OnOk result (length (touches c.now) ≤ self.new.room) }
        ensures same { (recent : List Command) → IsSince self.old recent → IsSince self.new recent }
    {
        self.touches.reserve(c.touch_count())
    }

    /// The barrier that stands before the command, if one does: the command is the next one listed.
    pub fn before(&mut self, c: &Command) -> Option<Barrier>
        requires { length (touches c.now) ≤ self.old.room }
        ensures barrier { (recent : List Command) → IsSince self.old recent → result ≡ barrier_before recent c.now }
        ensures since { (recent : List Command) → IsSince self.old recent → IsSince self.new (recent_after recent c.now) }
    {
        let barrier = barrier_of(self.uses, self.touches.conflict(c), c.number);
        if barrier.is_some() {
            self.touches.clear();
            self.uses = Uses::none();
        }
        self.touches.add(c);
        self.uses = self.uses.with(c);
        barrier
    }
}

fn barrier_of(uses: Uses, first: Option<u64>, second: u64) -> Option<Barrier>
    ensures { result ≡ cause_of uses first second }
{
    first.map(|first| Barrier {
        source: uses.source(),
        dest: Mask::device(Access::READ_WRITE),
        first,
        second: Some(second),
    })
}
