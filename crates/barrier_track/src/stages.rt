//! The stages of the commands since the last barrier.

ghost use Rattle.std.specs.Prelude.{◌≡◌, ◌&&◌, ◌||◌, cond, Some, None};
ghost use Rattle.vk_types.specs.Hazards.{has_stage, has_write, same_stage, no_access, write_access};
ghost use Rattle.vk_types.specs.BarrierCauses.{writes_at};
ghost use Rattle.barrier_track.specs.Since.{source_of, used_by, unused};

use vk_types::{Access, Command, Mask, Stage, Touch};

/// Whether some command works at a stage, and whether one writes there.
#[derive(Clone, Copy, Debug)]
pub struct StageUse {
    pub named: bool,
    pub writes: bool,
}

/// Each stage of the device.
#[derive(Clone, Copy, Debug)]
pub struct Uses {
    pub indirect: StageUse,
    pub compute: StageUse,
    pub transfer: StageUse,
}

fn writes_there(t: &Touch, stage: Stage) -> bool
    ensures { result ≡ (same_stage t.now.stage stage && has_write t.now.access) }
{
    t.stage.is(stage) && t.access.writes()
}

fn writes_at(c: &Command, stage: Stage) -> bool
    ensures { result ≡ writes_at stage c.now }
{
    for i in 0..c.touch_count() {
        if let Some(t) = c.touch_at(i) {
            if writes_there(&t, stage) {
                return true;
            }
        }
    }
    false
}

impl StageUse {
    const NONE: StageUse = StageUse {
        named: false,
        writes: false,
    };

    fn with(self, c: &Command, stage: Stage) -> StageUse
        ensures named { result.named ≡ (self.named || has_stage c.now stage) }
        ensures writes { result.writes ≡ (self.writes || writes_at stage c.now) }
    {
        StageUse {
            named: self.named || c.has_stage(stage),
            writes: self.writes || writes_at(c, stage),
        }
    }

    fn access(self) -> Option<Access>
        ensures { result ≡ cond self.named (Some (cond self.writes write_access no_access)) None }
    {
        if !self.named {
            None
        } else if self.writes {
            Some(Access::WRITE)
        } else {
            Some(Access::NONE)
        }
    }
}

impl Uses {
    /// No stage is used.
    pub fn none() -> Uses
        ensures { result ≡ unused }
    {
        Uses {
            indirect: StageUse::NONE,
            compute: StageUse::NONE,
            transfer: StageUse::NONE,
        }
    }

    /// With the stages of one more command.
    pub fn with(self, c: &Command) -> Uses
        ensures { result ≡ used_by self c.now }
    {
        Uses {
            indirect: self.indirect.with(c, Stage::Indirect),
            compute: self.compute.with(c, Stage::Compute),
            transfer: self.transfer.with(c, Stage::Transfer),
        }
    }

    /// The source of a barrier behind these commands.
    pub fn source(self) -> Mask
        ensures { result ≡ source_of self }
    {
        Mask {
            indirect: self.indirect.access(),
            compute: self.compute.access(),
            transfer: self.transfer.access(),
            host: None,
        }
    }
}
