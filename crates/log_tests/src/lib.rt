//! Bytes and texts at the edge: replies' lines, sources and sinks, logs, logs' texts and listings.
#![tactic(auto)]

#[cfg(test)]
mod calls;
#[cfg(test)]
mod listings;
#[cfg(test)]
mod logs;
#[cfg(test)]
mod replies;
#[cfg(test)]
mod short;
#[cfg(test)]
mod streams;
#[cfg(test)]
mod texts;
