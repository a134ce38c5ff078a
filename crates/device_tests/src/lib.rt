//! The device from outside: what commands do to memory, what queries count, and batches that it accepts, runs and completes.
#![tactic(auto)]

#[cfg(test)]
mod checked;
#[cfg(test)]
mod completed;
#[cfg(test)]
mod counter;
#[cfg(test)]
mod device;
#[cfg(test)]
mod dispatches;
#[cfg(test)]
mod driver;
#[cfg(test)]
mod holds;
#[cfg(test)]
mod memory;
#[cfg(test)]
mod queries;
