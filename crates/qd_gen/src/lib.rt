//! The run that makes its own input: the generated input, a source over a text, and a front that prints no
//! acknowledgements.
//!
//! The input is a demonstration, a smoke test and a load; `specs/Generated` says what it is, `specs/Quieted` what such a
//! front reads and prints.
#![tactic(auto)]

mod batch;
mod input;
mod laws;
mod line;
mod quiet;
mod stretch;
mod text_source;

pub use input::gen_input;
pub use laws::{input_is_read_as_asked, worked_examples};
pub use quiet::Quiet;
pub use text_source::TextSource;
