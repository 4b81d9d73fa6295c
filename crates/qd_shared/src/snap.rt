//! What is copied of a version.
use qd_base::Schemas;
use qd_manifest::Shape;

/// What is copied of a version: how many transactions it stands for, its tables with their parts, and their schemas.
#[derive(Drop)]
pub struct Snap {
    pub n: u64,
    pub shape: Shape,
    pub schemas: Schemas,
}
