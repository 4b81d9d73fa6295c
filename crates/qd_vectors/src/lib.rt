//! Values from outside, as tests of public calls alone: the calendar, names, texts and stored bytes that were made by hand
//! or elsewhere, and the calls that no program makes.
//!
//! They stand apart from the crates that they test, each of which is proved once so.
#![tactic(auto)]

#[cfg(test)]
mod base;
#[cfg(test)]
mod columns;
#[cfg(test)]
mod csv;
#[cfg(test)]
mod entries;
#[cfg(test)]
mod generated;
#[cfg(test)]
mod lists;
#[cfg(test)]
mod manifests;
#[cfg(test)]
mod merging;
#[cfg(test)]
mod putting;
#[cfg(test)]
mod sizes;
#[cfg(test)]
mod times;
