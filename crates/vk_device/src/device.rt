//! A device, and what can be asked of it.

ghost use Rattle.std.specs.Prelude.{◌≡◌, length};
ghost use Rattle.std.specs.Option.{option_copied};
ghost use Rattle.device_memory.specs.Held.{block_of};
ghost use Rattle.vk_device.specs.Accepting.{can_accept, holds_any};
ghost use Rattle.vk_device.specs.Completing.{can_complete};
ghost use Rattle.vk_device.specs.State.{no_state, number_of, ready_command, shader_of, work_shader};

use crate::accepted::Accepted;
use crate::machines::Machines;
use buffer_blocks::Block;
use command_queue::CommandQueue;
use device_memory::DeviceMemory;
use dx_types::limits::DEVICE_BATCHES;
use dx_types::{BlockNo, CallNo, ChunkNo};
use lifetime::Holds;
use query_pool::Queries;
use std::alloc::Global;
use std::collections::VecDeque;
use std::marker::Model;
use vk_types::{Command, Submission, Work};

/// A device. The marks of a batch have its number, so no mark has a number above that of the newest batch.
#[derive(Drop)]
pub struct Device {
    pub(crate) alloc: Global,
    pub(crate) memory: DeviceMemory,
    pub(crate) batches: VecDeque<Accepted>,
    pub(crate) queue: CommandQueue,
    pub(crate) newest: ChunkNo,
    pub(crate) order: Vec<u64>,
    pub(crate) holds: Holds,
    pub(crate) queries: Queries,
    pub(crate) machines: Machines,
}

impl Model for Device {
    ghost use Rattle.std.specs.Prelude.{◌≤◌, All};
    ghost use Rattle.lifetime.specs.declared.holds.Mark.{Mark};
    ghost use Rattle.vk_device.specs.State.{State};

    ghost Value = { State };

    ghost view = { λ d. record {
      held = d.memory;
      batches = d.batches.items;
      steps = d.queue;
      newest = d.newest;
      order = d.order.items;
      marks = d.holds;
      asked = d.queries;
      modules = d.machines;
    } };

    ghost invariant = { λ d. All (λ (m : Mark). m.chunk ≤ d.newest) d.holds };
}

impl Device {
    /// No block is held, and no batch was accepted.
    pub fn new(alloc: Global) -> Device
        ensures { result ≡ no_state }
    {
        Device {
            alloc,
            memory: DeviceMemory::new(alloc),
            batches: VecDeque::new(alloc),
            queue: CommandQueue::new(alloc),
            newest: 0,
            order: Vec::new(alloc),
            holds: Holds::new(alloc),
            queries: Queries::new(alloc),
            machines: Machines::new(alloc),
        }
    }

    /// How many commands were run so far.
    pub fn ran(&self) -> u64
        ensures { result ≡ length self.now.order }
    {
        self.order.len() as u64
    }

    /// The numbers of the commands run so far, in the order in which they were run.
    pub fn order(&self) -> &[u64]
        ensures { result.now ≡ self.now.order }
    {
        &self.order
    }

    /// The block of a number, None exactly where the device doesn't hold it.
    pub fn block(&self, number: BlockNo) -> Option<&Block>
        ensures { option_copied result ≡ block_of self.now.held number }
    {
        self.memory.block(number)
    }

    /// Whether the device holds fewer than 4 batches, and no block that has the number of a block or page of the submission.
    pub fn can_accept(&self, s: &Submission) -> bool
        ensures { result ≡ can_accept self.now s.now.batch.blocks.items s.now.batch.pages.items }
    {
        let blocks = &s.batch.blocks;
        let pages = &s.batch.pages;
        self.batches.len() < DEVICE_BATCHES
            && (!holds_any(&self.memory, blocks) && !holds_any(&self.memory, pages))
    }

    /// The number of the ready command `j`, from 0, in order of number. None exactly where at most `j` commands are ready.
    pub fn ready(&self, j: u32) -> Option<u64>
        ensures { result ≡ number_of (ready_command self.now j) }
    {
        let command = self.ready_command(j)?;
        Some(command.number)
    }

    /// The shader of that command. None exactly where it is no dispatch, or isn't there.
    pub fn shader_of(&self, j: u32) -> Option<CallNo>
        ensures { result ≡ shader_of (ready_command self.now j) }
    {
        let command = self.ready_command(j)?;
        dispatched(&command.work)
    }

    pub(crate) fn ready_command(&self, j: u32) -> Option<&Command>
        ensures { option_copied result ≡ ready_command self.now j }
    {
        let place = self.queue.ready(j)?;
        self.queue.command(place)
    }

    /// Whether there is an accepted batch, and each command of the oldest was run.
    pub fn can_complete(&self) -> bool
        ensures { result ≡ can_complete self.now }
    {
        match self.batches.front() {
            Some(batch) => !self.queue.has_left(batch.count),
            None => false,
        }
    }
}

fn holds_any(memory: &DeviceMemory, blocks: &[Block]) -> bool
    ensures { result ≡ holds_any memory.now blocks.now }
{
    blocks.iter().any(|b| memory.holds(b.number))
}

fn dispatched(work: &Work) -> Option<CallNo>
    ensures { result ≡ work_shader work.now }
{
    match work {
        Work::Dispatch { shader, .. } => Some(*shader),
        Work::Copy { .. } | Work::Fill { .. } | Work::Clear { .. } => None,
    }
}
