//! The manifest of a version: the tables that it shows, each with its parts, as bytes and back.
//!
//! `specs/Spelling` says which manifests there are, and the bytes of each; `specs/Layout` and `specs/Rules` say where bytes
//! that spell none are damaged.
#![tactic(auto)]

mod checks;
mod fault;
pub mod laws;
mod names;
mod parts;
mod read;
mod schema;
mod shape;
mod write;

pub use fault::ManifestFault;
pub use read::read_manifest;
pub use shape::{BLOCKS_PER_TRANSACTION, Manifest, Shape, TableParts};
pub use write::manifest_of;
