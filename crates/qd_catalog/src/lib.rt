//! The catalogue of versions: which versions are live, which blocks they list, and which blocks no live version lists any
//! more.
//!
//! The definitions stand in `specs/Versions`.
#![tactic(auto)]

mod blocks;
mod catalog;
mod laws;
mod rows;
mod tables;
mod version;

pub use catalog::{Catalog, ROWS};
pub use laws::catalogs_are_covered;
pub use qd_manifest::{ManifestFault as CatFault, manifest_of};
pub use version::Version;
