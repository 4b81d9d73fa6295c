//! Public calls of the upper layers that no case and no history makes, each once where it succeeds, and the program over
//! devices in memory whose calls fail.
//!
//! They stand apart from the crates that they test, each of which is proved once so. Of a store that passes share they look at what
//! a round leaves, what stays while a version is pinned, and what goes then.
#![tactic(auto)]

#[cfg(test)]
mod exprs;
#[cfg(test)]
mod faults;
#[cfg(test)]
mod ports;
#[cfg(test)]
mod readers;
#[cfg(test)]
mod removals;
#[cfg(test)]
mod rounds;
#[cfg(test)]
mod shareds;
#[cfg(test)]
mod stores;
#[cfg(test)]
mod tops;
#[cfg(test)]
mod workers;
