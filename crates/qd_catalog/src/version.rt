//! Live versions.
use qd_manifest::Shape;

/// A live version.
#[derive(Debug, Drop)]
pub struct Version {
    /// How many transactions it shows.
    pub n: u64,
    /// Its tables.
    pub shape: Shape,
}
