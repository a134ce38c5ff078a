//! Tests of shaders: how they are decoded, what they find in slots, and what dispatches of them leave, worked out apart
//! from this program.
#![tactic(auto)]

#[cfg(test)]
mod building;
#[cfg(test)]
mod computes;
#[cfg(test)]
mod dispatches;
#[cfg(test)]
mod operations;
#[cfg(test)]
mod rules;
#[cfg(test)]
mod runs;
#[cfg(test)]
mod shaders;
#[cfg(test)]
mod slots;
#[cfg(test)]
mod tokens;
#[cfg(test)]
mod views;
