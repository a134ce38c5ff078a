//! Modules of the SPIR-V profile: which words are one, and what the machine makes of them.
#![tactic(auto)]

#[cfg(test)]
mod machine;
mod outcomes;
#[cfg(test)]
mod samples;
#[cfg(test)]
mod words;

pub use outcomes::instructions_compute;
