//! Blocks at home, messages between threads and modules of shaders: one thread, and two at once.
#![tactic(auto)]

#[cfg(test)]
mod boards;
#[cfg(test)]
mod modules;
#[cfg(test)]
mod relays;
