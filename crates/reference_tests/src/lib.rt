//! Runs of the machine that plays a log in order, and of the memory that it keeps.
#![tactic(auto)]

#[cfg(test)]
mod acts;
#[cfg(test)]
mod dispatches;
#[cfg(test)]
mod lists;
#[cfg(test)]
mod logs;
#[cfg(test)]
mod memory;
#[cfg(test)]
mod objects;
#[cfg(test)]
mod replies;
#[cfg(test)]
mod runs;
#[cfg(test)]
mod shaders;
