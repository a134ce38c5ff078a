ghost use Rattle.std.specs.Prelude.{◌≡◌, OnOk, OnErr};
ghost use Rattle.base_lemmas.specs.IdMap as ids;
ghost use Rattle.immediate_ctx.specs.Tables.{with_values};

use std::alloc::{AllocError, Global};
use std::collections::BTreeMap;
use std::marker::Model;
use vk_types::QueryValue;

/// The newest count of each query that Posts brought one of.
#[derive(Drop)]
pub struct Values {
    counts: BTreeMap<u32, u64>,
}

impl Model for Values {
    ghost use Rattle.base_lemmas.specs.CodeMap.{map_of};
    ghost use Rattle.immediate_ctx.specs.Tables as tables;

    ghost Value = { tables.Numbers };

    ghost coded = { tables.numbers_code };

    ghost view = { λ v. map_of (λ n. n) v.counts.entries };
}

impl Values {
    /// No query has a count.
    pub fn new(alloc: Global) -> Values
        ensures { result ≡ ids.empty }
    {
        Values {
            counts: BTreeMap::new(alloc),
        }
    }

    /// The newest count of the query.
    pub fn of(&self, query: u32) -> Option<u64>
        ensures { result ≡ ids.get self.now query }
    {
        self.counts.get(&query).copied()
    }

    /// The counts that a Post brings, the later ones in place of the earlier.
    pub fn bring(&mut self, values: &[QueryValue]) -> Result<(), AllocError>
        ensures { OnOk result (self.new ≡ with_values self.old values.now) }
    {
        'each: for v in values {
            self.set(v)?;
        }
        Ok(())
    }

    fn set(&mut self, v: &QueryValue) -> Result<(), AllocError>
        ensures { OnOk result (self.new ≡ ids.insert self.old v.now.query v.now.value) }
    {
        self.counts.insert(v.query, v.value)?;
        Ok(())
    }
}
