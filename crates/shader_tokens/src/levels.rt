// The blocks that are open, and the nodes so far.

ghost use Rattle.std.specs.Prelude.{◌≡◌, ◌<◌, ◌==◌, ◌+◌, nat_lt, [], ◌∷◌, length, OnOk, MatchOption, vec_len};
ghost use Rattle.shader_model.specs.Body.{node_before, nodes_before, body_of};
ghost use Rattle.shader_model.specs.Nesting.{Spelled, put, in_loop, has_room};
ghost use Rattle.shader_tokens.specs.Levels.{kind, closed, blocks, seen};

use dx_types::limits::MAX_NESTING;
use shader_model::{Node, Test};
use sqlite_items::Items;
use std::alloc::{AllocError, Global};

/// An open block, and the first side of an if that had its else.
#[derive(Drop)]
pub enum Open {
    If(Test),
    Else(Test, Items<Node>),
    Loop,
}

/// An open block, with the nodes that stand before it in the block around it.
#[derive(Drop)]
pub struct Level {
    pub block: Open,
    pub before: Vec<Node>,
}

/// The open blocks, the outermost first, and the nodes of the innermost so far.
#[derive(Drop)]
pub struct Levels {
    pub levels: Vec<Level>,
    pub nodes: Vec<Node>,
}

/// A block that was closed, with its nodes.
#[derive(Drop)]
pub struct Closed {
    pub block: Open,
    pub nodes: Vec<Node>,
}

impl Levels {
    pub fn new(alloc: Global) -> Levels
        ensures blocks { blocks result ≡ [] }
        ensures seen { (s : Spelled) → seen result s ≡ s }
    {
        Levels {
            levels: Vec::new(alloc),
            nodes: Vec::new(alloc),
        }
    }

    pub fn has_room(&self) -> bool
        ensures { result ≡ has_room (blocks self.now) }
    {
        self.levels.len() < MAX_NESTING
    }

    pub fn in_loop(&self) -> bool
        ensures { result ≡ in_loop (blocks self.now) }
    {
        for level in &self.levels {
            if let Open::Loop = level.block {
                return true;
            }
        }
        false
    }

    pub fn add(&mut self, node: Node) -> Result<(), AllocError>
        ensures blocks { OnOk result (blocks self.new ≡ blocks self.old) }
        ensures seen { OnOk result ((s : Spelled) → seen self.new s ≡ seen self.old (put (node_before node) s)) }
    {
        self.nodes.push(node)?;
        Ok(())
    }

    pub fn open(&mut self, alloc: Global, block: Open) -> Result<(), AllocError>
        ensures blocks { OnOk result (blocks self.new ≡ kind block ∷ blocks self.old) }
        ensures seen { OnOk result ((s : Spelled) → seen self.new s ≡ seen self.old (closed block s)) }
    {
        let before = std::mem::replace(&mut self.nodes, Vec::new(alloc));
        self.levels.push(Level { block, before })?;
        Ok(())
    }

    pub fn close(&mut self) -> Option<Closed>
        ensures blocks { MatchOption result (blocks self.old ≡ []) (λ c. blocks self.old ≡ kind c.block ∷ blocks self.new) }
        ensures seen { MatchOption result (blocks self.old ≡ []) (λ c. (s : Spelled) → seen self.old s ≡ seen self.new (closed c.block (put (nodes_before c.nodes.items) s))) }
    {
        match self.levels.pop() {
            None => None,
            Some(Level { block, before }) => {
                let nodes = std::mem::replace(&mut self.nodes, before);
                Some(Closed { block, nodes })
            }
        }
    }
}
