//! Single fields of stored files, as bytes and back: numbers, names, texts and schemas.
//!
//! `specs/Spelling` has the bytes of each; `specs/Layout` says what is read of bytes, and where they are damaged.
#![tactic(auto)]

mod codes;
mod numbers;
mod schema;
mod stop;
mod texts;

pub use codes::{kind_at, push_kind, push_unit, unit_at};
pub use numbers::{byte_at, damage, push_u16, push_u32, push_u64, u16_at, u32_at, u64_at};
pub use schema::{column_at, keys_at, push_column, push_keys, push_schema, schema_at};
pub use stop::Stop;
pub use texts::{name_at, push_name, push_text, text_at};
