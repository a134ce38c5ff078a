ghost use Rattle.std.specs.Prelude.{◌≡◌, ◌==◌, nat_lt, is_none, IfSome};
ghost use Rattle.d3d_model.specs.declared.codes.TheConstants.{EVENT_QUERY, PREDICATE_QUERY};
ghost use Rattle.d3d_model.specs.Verdict.{has_result};
ghost use Rattle.d3d_state.specs.Sorts.{new_query, sort_number};

use d3d_model::codes;
use dx_types::CallNo;
use std::marker::Model;

/// What a query asks: D3D11_QUERY.
#[derive(Clone, Copy, Debug, PartialEq, Eq)]
pub enum Sort {
    Event,
    Occlusion,
    PipelineStatistics,
    OcclusionPredicate,
}

impl Sort {
    /// The sort of a number, if it has one.
    pub fn from_number(number: u32) -> Option<Sort>
        ensures known { IfSome result (λ sort. number ≡ sort_number sort) }
        ensures unknown { is_none result ≡ nat_lt PREDICATE_QUERY number }
    {
        match number {
            codes::EVENT_QUERY => Some(Sort::Event),
            codes::OCCLUSION_QUERY => Some(Sort::Occlusion),
            codes::STATISTICS_QUERY => Some(Sort::PipelineStatistics),
            codes::PREDICATE_QUERY => Some(Sort::OcclusionPredicate),
            _ => None,
        }
    }
}

/// A live query: whether it is begun on the immediate context, and the call that last ended it there.
#[derive(Clone, Copy, Debug, PartialEq, Eq)]
pub struct Query {
    pub sort: Sort,
    pub begun: bool,
    pub ended: Option<CallNo>,
}

impl Model for Query {
    ghost use Rattle.d3d_model.specs.D3dState as model;
    ghost use Rattle.d3d_state.specs.Codes.{query_code};

    ghost Value = { model.Query };

    ghost coded = { query_code };

    ghost use Rattle.std.specs.Prelude.{◌≡◌};
    ghost use mathlib.Core.Path.{ap};
    ghost use Rattle.d3d_state.specs.Sorts.{sort_number, sort_from, sort_back};

    ghost view = { λ q. record { sort = sort_number q.sort; begun = q.begun; ended = q.ended } };

    ghost inverse = { λ v. record { sort = sort_from v.sort; begun = v.begun; ended = v.ended } };

    ghost inverse_ok = { λ q h. ap (λ s. record { sort = s; begun = q.begun; ended = q.ended }) (sort_back q.sort) };
}

impl Query {
    /// A query of this sort that was never begun.
    pub fn new(sort: Sort) -> Query
        ensures { result ≡ new_query (sort_number sort) }
    {
        Query {
            sort,
            begun: false,
            ended: None,
        }
    }

    /// Whether it is an event, which is never begun.
    pub fn is_event(&self) -> bool
        ensures { result ≡ (self.now.sort == EVENT_QUERY) }
    {
        matches!(self.sort, Sort::Event)
    }

    /// Whether predication may ask it.
    pub fn is_predicate(&self) -> bool
        ensures { result ≡ (self.now.sort == PREDICATE_QUERY) }
    {
        matches!(self.sort, Sort::OcclusionPredicate)
    }

    /// Whether its result may be asked for: it was ended, and not begun again.
    pub fn has_result(&self) -> bool
        ensures { result ≡ has_result self.now }
    {
        self.ended.is_some() && !self.begun
    }
}
