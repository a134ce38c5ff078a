//! Tests of what a plan is made of: the table of buffers, what is set, what is live, what is kept of the calls so far, the
//! checks of calls, and plans of logs.
#![tactic(auto)]

#[cfg(test)]
mod bindings;
#[cfg(test)]
mod checks;
#[cfg(test)]
mod live;
#[cfg(test)]
mod objects;
#[cfg(test)]
mod plans;
#[cfg(test)]
mod same;
#[cfg(test)]
mod table;
#[cfg(test)]
mod uses;
#[cfg(test)]
mod views;
