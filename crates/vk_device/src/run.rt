//! Runs of ready commands.

ghost use Rattle.std.specs.Prelude.{◌≡◌, ℕ, ◌+◌, ◌<◌, ◌^◌, OnErr, OnOk, Some, slice_get, true};
ghost use Rattle.std.specs.Option.{option_copied};
ghost use Rattle.vk_types.specs.declared.command.Command.{Command};
ghost use Rattle.query_pool.specs.Asked.{counted_more};
ghost use Rattle.command_queue.specs.Readiness.{ready_places, step_command};
ghost use Rattle.vk_device.specs.Running.{CanRunReady, Runs, SameCommands};

use crate::device::Device;
use command_queue::CommandQueue;
use query_pool::Queries;
use spirv_words::Module;
use std::alloc::AllocError;
use vk_types::Command;

impl Device {
    /// Runs the ready command `j`, which is there. A module is given exactly where it is a dispatch, and is that of the command's
    /// shader: the device keeps the first that is given for a shader, decoded, and each later one means the same. After a lack of
    /// memory no command was run, but bytes that the command writes may have changed.
    pub fn run(&mut self, j: u32, module: Option<&Module>) -> Result<(), AllocError>
        requires { CanRunReady self.old j (option_copied «module») }
        ensures ok { OnOk result (Runs j (option_copied «module».entry) self.old self.new) }
        ensures err { OnErr result (SameCommands self.old self.new) }
    {
        let place = place_of_ready(&self.queue, j);
        let command = command_at(&self.queue, place);
        let number = command.number;
        self.order.reserve(1)?;
        let invocations = self.machines.run(&mut self.memory, command, module)?;
        count(&mut self.queries, number, invocations)?;
        self.queue.mark(place);
        self.order.push_reserved(number);
        Ok(())
    }
}

/// Where the ready command `j` stands, which is there.
fn place_of_ready(queue: &CommandQueue, j: u32) -> usize
    requires { (place : ℕ) × (slice_get (ready_places queue.now) j ≡ Some place) }
    ensures { slice_get (ready_places queue.now) j ≡ Some result }
{
    match queue.ready(j) {
        Some(place) => place,
        None => unreachable!(),
    }
}

/// The command at a place where one is.
fn command_at(queue: &CommandQueue, place: usize) -> &Command
    requires { (command : Command) × (step_command (slice_get queue.now place) ≡ Some command) }
    ensures { step_command (slice_get queue.now place) ≡ Some result.now }
{
    match queue.command(place) {
        Some(command) => command,
        None => unreachable!(),
    }
}

/// Notes how many invocations a command ran. More than queries can count in all are a lack of memory.
fn count(queries: &mut Queries, command: u64, invocations: u64) -> Result<(), AllocError>
    ensures { OnOk result (queries.new ≡ record queries.old { counts = counted_more queries.old.counts command invocations }) }
{
    if !fits(queries.total(), invocations) {
        return Err(AllocError);
    }
    queries.count(command, invocations)
}

/// Whether a total of invocations and these stay below the limit of what queries can count.
fn fits(total: u64, invocations: u64) -> bool
    ensures { result ≡ true → total + invocations < 2 ^ 63 }
{
    total < 4_611_686_018_427_387_904 && invocations < 4_611_686_018_427_387_904
}
