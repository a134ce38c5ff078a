//! Chunks from outside: their entries, blocks and pages.
#![tactic(auto)]

#[cfg(test)]
mod blocks;
#[cfg(test)]
mod chunks;
#[cfg(test)]
mod conclusions;
#[cfg(test)]
mod pages;
