//! Listings from outside: touches, barriers and orders, and the messages whose operations they are.
#![tactic(auto)]

#[cfg(test)]
mod barriers;
#[cfg(test)]
mod batches;
#[cfg(test)]
mod completions;
#[cfg(test)]
mod orders;
#[cfg(test)]
mod touches;
