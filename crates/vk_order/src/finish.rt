//! For each command of a listing the fence behind it that finishes it.

ghost use Rattle.std.specs.Prelude.{◌≡◌, ℕ, ◌+◌, ◌<◌, ◌≤◌, ◌≢◌, ◌^◌, ◌++◌, ◌∷◌, [], take, Some, IfOk, OnOk, length, slice_get, slice_index};
ghost use Rattle.vk_order.specs.Finish.{AreFinished, IsFinish, IsFinishIf, IsFinishStep, is_fence_if, submitted_after};

use std::alloc::{AllocError, Global};
use vk_types::VkOp;

/// A fence, by its number and its place.
#[derive(Clone, Copy)]
pub struct FenceAt {
    pub number: u64,
    pub place: u32,
}

/// What stands for the place of no fence.
pub const NEVER: u32 = u32::MAX;

// How many of the fences finish more than one of this number. They stand in front.
fn longer_count(fences: &[FenceAt], number: u64) -> usize
    ensures { result ≤ length fences.now }
{
    let mut count = fences.len();
    'shorter: while count > 0 && fences[count - 1].number <= number {
        count -= 1;
    }
    count
}

// How many of the fences finish a submission of this number. They stand in front.
fn enough_count(fences: &[FenceAt], number: u64) -> usize
    ensures { result ≤ length fences.now }
{
    let mut low = 0;
    let mut high = fences.len();
    'halves: while low < high {
        let middle = low + (high - low) / 2;
        if fences[middle].number >= number {
            low = middle + 1;
        } else {
            high = middle;
        }
    }
    low
}

// The place of the last of the fences that finishes the submission.
fn finish_of(fences: &[FenceAt], number: u64) -> u32
    ensures { IsFinish fences.now number result }
{
    let count = enough_count(fences, number);
    if count == 0 {
        return NEVER;
    }
    let fence = fences[count - 1];
    if fence.number < number {
        return NEVER;
    }
    fence.place
}

fn finish_if(fences: &[FenceAt], submitted: Option<u64>) -> u32
    ensures { IsFinishIf fences.now submitted result }
{
    match submitted {
        Some(number) => finish_of(fences, number),
        None => NEVER,
    }
}

/// What is known of a listing's end: the fences that stand there, each of a greater number than those behind it, and
/// the number of the first submission, with the places of fences for the commands.
#[derive(Drop)]
pub struct Finishes {
    pub places: Vec<u32>,
    pub fences: Vec<FenceAt>,
    pub submitted: Option<u64>,
}

impl Finishes {
    fn push_fence(&mut self, number: u64, place: u32) -> Result<(), AllocError>
        ensures places { self.new.places ≡ self.old.places }
        ensures submitted { self.new.submitted ≡ self.old.submitted }
        ensures fences { OnOk result ((n : ℕ) × (self.new.fences.items ≡ take n self.old.fences.items ++ (record { number = number; place = place }) ∷ [])) }
    {
        let count = longer_count(&self.fences, number);
        self.fences.truncate(count);
        self.fences.push(FenceAt { number, place })?;
        Ok(())
    }

    fn set_place(&mut self, at: usize)
        ensures fences { self.new.fences ≡ self.old.fences }
        ensures submitted { self.new.submitted ≡ self.old.submitted }
        ensures len { length self.new.places.items ≡ length self.old.places.items }
        ensures here { at < length self.old.places.items → IsFinishIf self.old.fences.items self.old.submitted (slice_index self.new.places.items at) }
        ensures others { (x : ℕ) → x ≢ at → slice_index self.new.places.items x ≡ slice_index self.old.places.items x }
    {
        let place = finish_if(&self.fences, self.submitted);
        if at < self.places.len() {
            self.places[at] = place;
        }
    }

    fn note(&mut self, at: usize, op: &VkOp) -> Result<(), AllocError>
        requires { at < 2 ^ 32 }
        ensures { OnOk result (IsFinishStep self.old self.new at op.now) }
    {
        match op {
            VkOp::Submit(number) => self.submitted = Some(*number),
            VkOp::Fence(number) => self.push_fence(*number, at as u32)?,
            VkOp::Command(_) => self.set_place(at),
            _ => (),
        }
        Ok(())
    }
}

/// The place of a fence for each place of a command: the first behind it that finishes it, and `NEVER` where there is none.
pub fn finish_places(alloc: Global, ops: &[VkOp]) -> Result<Vec<u32>, AllocError>
    requires { length ops.now < 2 ^ 32 }
    ensures { IfOk result (λ places. AreFinished ops.now places.items) }
{
    let mut finishes = Finishes {
        places: vec![in alloc; NEVER; ops.len()]?,
        fences: Vec::new(alloc),
        submitted: None,
    };
    'backward: for at in (0..ops.len()).rev() {
        finishes.note(at, &ops[at])?;
    }
    Ok(finishes.places)
}
