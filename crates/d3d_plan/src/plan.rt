ghost use Rattle.std.specs.Prelude.{◌&&◌, nat_le, ◌≡◌, ◌-◌, ◌≤◌, List, length, Some, slice_get};
ghost use Rattle.std.specs.List.{All};
ghost use Rattle.d3d_plan.specs.Planned.{Planned, part_of};
ghost use Rattle.d3d_plan.specs.Shown.{IsWithinOf, shown, span_of};
ghost use Rattle.std.specs.Option.{option_copied, option_map};
ghost use Rattle.d3d_plan.specs.Verdicts.{refusal_of};

use crate::entry::{Entry, Words};
use crate::tables::Tables;
use d3d_effects::part;
use d3d_state::LiveShader;
use dx_types::{CallNo, Refusal, ResRange, Span};
use std::marker::Model;

/// Whether a call goes, or why it is refused.
#[derive(Clone, Copy, Debug, PartialEq, Eq)]
pub enum Verdict {
    Go,
    Refused(Refusal),
}

fn span_of(words: Words) -> Span
    ensures { result ≡ span_of words }
{
    Span {
        start: u64::from(words.start),
        len: u64::from(words.len),
    }
}

/// The plan of a log. A clause sees what is planned of each call, in order.
#[derive(Drop)]
pub struct Plan {
    entries: Vec<Entry>,
    tables: Tables,
}

impl Model for Plan {
    ghost use Rattle.std.specs.Prelude.{List};
    ghost use Rattle.std.specs.List.{All};
    ghost use Rattle.d3d_plan.specs.Planned.{Planned};
    ghost use Rattle.d3d_plan.specs.Shown.{IsWithinOf, shown};

    ghost Value = { List Planned };

    ghost view = { λ p. shown p.tables p.entries.items };

    ghost invariant = { λ p. All (IsWithinOf p.tables) p.entries.items };
}

impl Plan {
    /// The plan that these tables show.
    pub(crate) fn new(entries: Vec<Entry>, tables: Tables) -> Plan
        requires { All (IsWithinOf tables) entries.items }
        ensures { result ≡ shown tables entries.items }
    {
        Plan { entries, tables }
    }

    /// Whether the log has a call n: they are numbered from 1.
    pub fn has(&self, n: CallNo) -> bool
        ensures { result ≡ (nat_le 1 n && nat_le n (length self.now)) }
    {
        1 <= n && n as usize <= self.entries.len()
    }

    /// Whether call n of the log, from 1, goes, or why it is refused.
    pub fn verdict(&self, n: CallNo) -> Verdict
        requires first { 1 ≤ n }
        requires last { n ≤ length self.now }
        ensures { Some (refusal_of result) ≡ option_map (λ (p : Planned). p.verdict) (slice_get self.now (n - 1)) }
    {
        match self.entries[(n - 1) as usize].verdict {
            None => Verdict::Go,
            Some(why) => Verdict::Refused(why),
        }
    }

    /// The call that an accepted readback, or an accepted question for a query's result, waits for; None for other calls.
    pub fn last_use(&self, n: CallNo) -> Option<CallNo>
        requires first { 1 ≤ n }
        requires last { n ≤ length self.now }
        ensures { Some result ≡ option_map (λ (p : Planned). p.last_use) (slice_get self.now (n - 1)) }
    {
        self.entries[(n - 1) as usize].last_use
    }

    /// The ranges that call n binds.
    pub fn bound(&self, n: CallNo) -> &[ResRange]
        requires first { 1 ≤ n }
        requires last { n ≤ length self.now }
        ensures { Some result.now ≡ option_map (λ (p : Planned). p.bound) (slice_get self.now (n - 1)) }
    {
        self.tables.ranges_of(self.entries[(n - 1) as usize].piece)
    }

    /// The ranges that call n binds by one call of the list that it executes, from 0; none past the last. Of a call that executes
    /// no list those of item 0 are all.
    pub fn bound_by(&self, n: CallNo, item: u32) -> &[ResRange]
        requires first { 1 ≤ n }
        requires last { n ≤ length self.now }
        ensures { Some result.now ≡ option_map (λ (p : Planned). part_of p item) (slice_get self.now (n - 1)) }
    {
        let piece = self.entries[(n - 1) as usize].piece;
        let bound = self.tables.ranges_of(piece);
        let ends = self.tables.ends_of(piece);
        if ends.is_empty() && item == 0 {
            return bound;
        }
        part(bound, ends, item as usize)
    }

    /// The calls of the command list that call n finishes or executes, by their numbers in the log; none for other calls, and
    /// where it is refused.
    pub fn segment(&self, n: CallNo) -> &[CallNo]
        requires first { 1 ≤ n }
        requires last { n ≤ length self.now }
        ensures { Some result.now ≡ option_map (λ (p : Planned). p.calls) (slice_get self.now (n - 1)) }
    {
        self.tables.calls_of(self.entries[(n - 1) as usize].piece)
    }

    /// Where in the input the token words of the shader stand that call n creates; None for other calls, and where it is
    /// refused.
    pub fn shader_words(&self, n: CallNo) -> Option<Span>
        requires first { 1 ≤ n }
        requires last { n ≤ length self.now }
        ensures { Some result ≡ option_map (λ (p : Planned). p.words) (slice_get self.now (n - 1)) }
    {
        self.entries[(n - 1) as usize].words.map(span_of)
    }

    /// The shader that call n creates; None for other calls, and where it is refused.
    pub fn shader(&self, n: CallNo) -> Option<&LiveShader>
        requires first { 1 ≤ n }
        requires last { n ≤ length self.now }
        ensures { Some (option_copied result) ≡ option_map (λ (p : Planned). p.shader) (slice_get self.now (n - 1)) }
    {
        self.entries[(n - 1) as usize].shader.as_ref()
    }
}
