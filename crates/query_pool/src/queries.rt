ghost use Rattle.std.specs.Prelude.{◌≡◌, ℕ, ◌+◌, ◌<◌, ◌≤◌, ◌^◌, [], ◌↔◌, All, IsTrue, None, OnOk, OnErr, MatchOption};
ghost use Rattle.query_pool.specs.Asked.{Marks, Answered, begun_at, counted_more, invocations_between, invocations_of, part_between};
ghost use Rattle.query_pool.specs.Running.{Climbs, counts_from};

use crate::sums::{Sum, below, place, raise_from, sum_below};
use dx_types::CallNo;
use std::alloc::{AllocError, Global};
use std::collections::{BTreeMap, VecDeque};
use std::marker::Model;
use vk_types::{QueryMark, QueryValue};

/// A query that call `call` ended: it counts the commands from number `from` up to the one before `to`.
#[derive(Clone, Copy, Debug)]
pub struct Ended {
    pub call: CallNo,
    pub query: u32,
    pub from: u64,
    pub to: u64,
}

/// The queries that are begun, each with the first command that it counts, those that are ended and not answered, in order, and
/// running sums of the invocations that commands ran, with their total: what lies between two marks is a difference of two sums.
#[derive(Drop)]
pub struct Queries {
    begun: BTreeMap<u32, u64>,
    ended: VecDeque<Ended>,
    sums: Vec<Sum>,
    total: u64,
}

impl Model for Queries {
    ghost use Rattle.std.specs.Prelude.{◌≡◌, ◌<◌, ◌^◌};
    ghost use Rattle.query_pool.specs.Asked.{Asked, invocations_of};
    ghost use Rattle.query_pool.specs.Rising.{RisesBy};
    ghost use Rattle.query_pool.specs.Running.{Climbs, counts_from};

    ghost Value = { Asked };

    ghost view = { λ q. record { begun = q.begun.entries; ended = q.ended.items; counts = counts_from 0 q.sums.items } };

    ghost invariant = { λ q. RisesBy (λ e. e.call) q.ended.items × Climbs 0 0 q.sums.items × (invocations_of (counts_from 0 q.sums.items) < 2 ^ 63) × (q.total ≡ invocations_of (counts_from 0 q.sums.items)) };
}

impl Queries {
    /// No query is begun, and no command counted.
    pub fn new(alloc: Global) -> Queries
        ensures { result ≡ record { begun = []; ended = []; counts = [] } }
    {
        Queries {
            begun: BTreeMap::new(alloc),
            ended: VecDeque::new(alloc),
            sums: Vec::new(alloc),
            total: 0,
        }
    }

    /// How many invocations all commands ran that were counted.
    pub fn total(&self) -> u64
        ensures { result ≡ invocations_of self.now.counts }
    {
        self.total
    }

    /// Begins or ends a query. The marks of one query are a Begin and an End in turn, and the calls of Ends never
    /// fall. A lack of memory changes nothing.
    pub fn mark(&mut self, m: QueryMark) -> Result<(), AllocError>
        requires turn { IsTrue m.begins ↔ (begun_at m.query self.old.begun ≡ None) }
        requires order { All (λ e. e.call ≤ m.call) self.old.ended }
        ensures ok { OnOk result (Marks m self.old self.new) }
        ensures err { OnErr result (self.new ≡ self.old) }
    {
        if m.begins {
            self.begun.insert(m.query, m.before)?;
            return Ok(());
        }
        let Some(from) = self.begun.get(&m.query).copied() else {
            unreachable!()
        };
        self.ended.push_back(Ended {
            call: m.call,
            query: m.query,
            from,
            to: m.before,
        })?;
        self.begun.remove(&m.query);
        Ok(())
    }

    /// Notes that a command ran so many invocations more. All counts together stay below 2^63. A lack of memory changes
    /// nothing. It takes the commands of greater numbers that were counted before it.
    pub fn count(&mut self, command: u64, invocations: u64) -> Result<(), AllocError>
        requires { invocations_of self.old.counts + invocations < 2 ^ 63 }
        ensures ok { OnOk result (self.new ≡ record self.old { counts = counted_more self.old.counts command invocations }) }
        ensures between { OnOk result ((from to : ℕ) → invocations_between from to self.new.counts
            ≡ invocations_between from to self.old.counts + part_between from to (command, invocations)) }
        ensures all { OnOk result (invocations_of self.new.counts ≡ invocations_of self.old.counts + invocations) }
        ensures err { OnErr result (self.new ≡ self.old) }
    {
        let at = below(&self.sums, command);
        place(&mut self.sums, at, command)?;
        raise_from(&mut self.sums, at, invocations);
        self.total += invocations;
        Ok(())
    }

    /// The value of the query that was ended first, which goes, where its End is a call of at most `upto`. Else no
    /// ended query has an End of at most `upto`. The value is right once all dispatches before the End were counted. It
    /// takes the logarithm of all commands.
    pub fn answer(&mut self, upto: CallNo) -> Option<QueryValue>
        ensures { MatchOption result
            ((self.new ≡ self.old) × All (λ e. upto < e.call) self.old.ended)
            (λ v. Answered upto self.old v self.new) }
    {
        if self.ended.front()?.call > upto {
            return None;
        }
        let ended = self.ended.pop_front()?;
        Some(QueryValue {
            call: ended.call,
            query: ended.query,
            value: counted_between(&self.sums, ended.from, ended.to),
        })
    }
}

fn counted_between(sums: &[Sum], from: u64, to: u64) -> u64
    requires { Climbs 0 0 sums.now }
    ensures { result ≡ invocations_between from to (counts_from 0 sums.now) }
{
    let upto = sum_below(sums, to);
    upto.saturating_sub(sum_below(sums, from))
}
