//! What is known of the acts of a listing up to a place, by their ranks in an order: by it it is told quickly that the order
//! keeps each act before the one there that the listing orders so.

ghost use Rattle.std.specs.Prelude.{◌≡◌, ℕ, ◌≤◌, true, false, Some, IfSome, slice_get};
ghost use Rattle.vk_order.specs.Classes.{names, stages_of};
ghost use Rattle.vk_order.specs.Turns.{AreReadied, HasRow, IsKept, IsNotedTurn, IsReadied, IsReadyBy, IsSame, RowsGrew};

use crate::classes::{Stages, are_stages, names, stages_of};
use std::alloc::{AllocError, Global};
use vk_types::{Barrier, Command, VkOp};

/// Commands with the same stages: the greatest rank of those so far, and of those before a barrier that orders them before
/// commands with these stages.
#[derive(Clone, Copy)]
pub struct Row {
    pub stages: Stages,
    pub latest: u32,
    pub ready: u32,
}

/// What is known of the acts so far, by their ranks. Where something was lost, nothing is told of commands.
#[derive(Drop)]
pub struct Turns {
    rows: Vec<Row>,
    all: u32,
    host: u32,
    fenced: u32,
    lost: bool,
}

// ---- rows

fn push_stages(rows: &mut Vec<Row>, stages: Stages) -> Result<(), AllocError> {
    if !rows.iter().any(|row| are_stages(&row.stages, &stages)) {
        rows.push(Row {
            stages,
            latest: 0,
            ready: 0,
        })?;
    }
    Ok(())
}

// Notes the rank of a command with these stages. False where no row has them.
fn note_rank(rows: &mut [Row], stages: &Stages, rank: u32) -> bool
    ensures grew { RowsGrew rows.old rows.new }
    ensures noted { result ≡ true → HasRow rows.new stages.now rank }
{
    for i in 0..rows.len() {
        let row = rows[i];
        if are_stages(&row.stages, stages) {
            rows[i] = Row {
                latest: row.latest.max(rank),
                ..row
            };
            return true;
        }
    }
    false
}

// The greatest rank of the rows that the source of a barrier names.
fn named_rank(rows: &[Row], b: &Barrier) -> u32
    ensures { (i : ℕ) (row : Row) → slice_get rows.now i ≡ Some row → names b.now.source row.stages ≡ true → row.latest ≤ result }
{
    let mut most: u32 = 0;
    for i in 0..rows.len() {
        if names(&b.source, &rows[i].stages) {
            most = most.max(rows[i].latest);
        }
    }
    most
}

// Makes the rows that the destination of a barrier names ready at this rank.
fn make_ready(rows: &mut [Row], b: &Barrier, rank: u32)
    ensures grew { RowsGrew rows.old rows.new }
    ensures ready { IsReadied rows.new b.now rank }
{
    for i in 0..rows.len() {
        let row = rows[i];
        if names(&b.dest, &row.stages) {
            rows[i] = Row {
                ready: row.ready.max(rank),
                ..row
            };
        }
    }
}

// The rank at which commands with these stages are ready; none where no row has them.
fn ready_rank(rows: &[Row], stages: &Stages) -> Option<u32>
    ensures { IfSome result (IsReadyBy rows.now stages.now) }
{
    for i in 0..rows.len() {
        if are_stages(&rows[i].stages, stages) {
            return Some(rows[i].ready);
        }
    }
    None
}

fn is_ready(rows: &[Row], stages: &Stages, rank: u32) -> bool
    ensures { result ≡ true → IsReadyBy rows.now stages.now rank }
{
    match ready_rank(rows, stages) {
        Some(ready) => ready <= rank,
        None => false,
    }
}

impl Turns {
    /// What is known before the first operation.
    pub fn new(alloc: Global, ops: &[VkOp]) -> Result<Turns, AllocError> {
        let mut rows = Vec::new(alloc);
        for op in ops {
            if let VkOp::Command(c) = op {
                push_stages(&mut rows, stages_of(c))?;
            }
        }
        Ok(Turns {
            rows,
            all: 0,
            host: 0,
            fenced: 0,
            lost: false,
        })
    }

    /// Whether each act so far that the listing orders before this one has no greater rank. Where it is false, mostly one has.
    pub fn is_kept(&self, op: &VkOp, rank: u32) -> bool
        ensures { result ≡ true → IsKept self.now rank op.now }
    {
        match op {
            VkOp::HostWrite { .. } | VkOp::HostRead { .. } => {
                self.host <= rank && self.fenced <= rank
            }
            VkOp::Command(d) => {
                self.host <= rank && !self.lost && is_ready(&self.rows, &stages_of(d), rank)
            }
            _ => true,
        }
    }

    fn note_command(&mut self, c: &Command, rank: u32)
        ensures same { IsSame self.old self.new }
        ensures rows { RowsGrew self.old.rows.items self.new.rows.items }
        ensures lost { self.new.lost ≡ false → self.old.lost ≡ false }
        ensures noted { self.new.lost ≡ false → HasRow self.new.rows.items (stages_of c.now) rank }
    {
        if !note_rank(&mut self.rows, &stages_of(c), rank) {
            self.lost = true;
        }
    }

    fn note_barrier(&mut self, b: &Barrier)
        ensures same { IsSame self.old self.new }
        ensures rows { RowsGrew self.old.rows.items self.new.rows.items }
        ensures lost { self.new.lost ≡ self.old.lost }
        ensures ready { AreReadied self.old.rows.items b.now self.new.rows.items }
    {
        let named = named_rank(&self.rows, b);
        make_ready(&mut self.rows, b, named);
    }

    /// Notes an operation of this rank.
    pub fn note(&mut self, op: &VkOp, rank: u32)
        ensures { IsNotedTurn self.old self.new rank op.now }
    {
        let before = self.all;
        self.all = before.max(rank);
        match op {
            VkOp::HostWrite { .. } | VkOp::HostRead { .. } => self.host = self.host.max(rank),
            VkOp::Command(c) => self.note_command(c, rank),
            VkOp::Barrier(b) => self.note_barrier(b),
            VkOp::Fence(_) => self.fenced = self.fenced.max(before),
            _ => (),
        }
    }
}
