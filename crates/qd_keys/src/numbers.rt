//! Numbers that tell items apart.

/// A number for each of some items: two of them have one number exactly where they are the same.
#[derive(Drop)]
pub struct Numbers {
    /// For each item its number, below the bound.
    pub numbers: Vec<usize>,
    /// What all numbers are below.
    pub bound: usize,
}
