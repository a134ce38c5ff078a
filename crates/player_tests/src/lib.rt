//! Runs of the top call: logs with the output and the status that they must have.
#![tactic(auto)]

#[cfg(test)]
mod audits;
#[cfg(test)]
mod cases;
#[cfg(test)]
mod examples;
#[cfg(test)]
mod generated;
#[cfg(test)]
mod refusals;
#[cfg(test)]
mod replays;
#[cfg(test)]
mod shaders;
#[cfg(test)]
mod texts;
