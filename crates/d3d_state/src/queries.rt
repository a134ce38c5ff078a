ghost use Rattle.std.specs.Prelude.{◌≡◌, OnErr, OnOk};
ghost use Rattle.d3d_model.specs.Effect.{begun_query, ended_query};
ghost use Rattle.base_lemmas.specs.IdMap as ids;

use crate::Query;
use dx_types::CallNo;
use std::alloc::{AllocError, Global};
use std::collections::BTreeMap;
use std::marker::Model;

/// The live queries by ids. A clause sees the map of them.
#[derive(Drop)]
pub struct Queries {
    queries: BTreeMap<u32, Query>,
}

impl Model for Queries {
    ghost use Rattle.base_lemmas.specs.CodeMap.{map_of};
    ghost use Rattle.d3d_state.specs.Codes as codes;

    ghost Value = { codes.Queries };

    ghost coded = { codes.queries_code };

    ghost view = { λ q. map_of (λ s. s) q.queries.entries };
}

impl Queries {
    /// No query is live.
    pub fn new(alloc: Global) -> Queries
        ensures { result ≡ ids.empty }
    {
        Queries {
            queries: BTreeMap::new(alloc),
        }
    }

    /// A live query.
    pub fn get(&self, id: u32) -> Option<Query>
        ensures { result ≡ ids.get self.now id }
    {
        self.queries.get(&id).copied()
    }

    /// One more query is live. Want of memory changes nothing.
    pub fn insert(&mut self, id: u32, query: Query) -> Result<(), AllocError>
        ensures inserted { OnOk result (self.new ≡ ids.insert self.old id query) }
        ensures unchanged { OnErr result (self.new ≡ self.old) }
    {
        self.queries.insert(id, query)?;
        Ok(())
    }

    /// A query is live no more.
    pub fn remove(&mut self, id: u32)
        ensures { self.new ≡ ids.remove self.old id }
    {
        let _ = self.queries.remove(&id);
    }

    /// A live query begins on the immediate context.
    pub fn begin(&mut self, id: u32)
        ensures { self.new ≡ begun_query (ids.get self.old id) self.old id }
    {
        if let Some(query) = self.queries.get_mut(&id) {
            query.begun = true;
        }
    }

    /// Call n ends a live query on the immediate context.
    pub fn end(&mut self, id: u32, n: CallNo)
        ensures { self.new ≡ ended_query n (ids.get self.old id) self.old id }
    {
        if let Some(query) = self.queries.get_mut(&id) {
            query.begun = false;
            query.ended = Some(n);
        }
    }
}
