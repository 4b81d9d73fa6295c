//! What a statement asks for.
use qd_meaning::AskPlan;

/// What a statement that asks asks for. Tables are named by their positions among the schemas.
#[derive(Drop)]
pub enum Plan {
    /// SHOW PARTITIONS.
    Show {
        /// The table.
        table: usize,
    },
    /// A query.
    Ask(AskPlan),
}
