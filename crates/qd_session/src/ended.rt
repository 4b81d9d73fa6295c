//! How a session ends.

/// How a session ended.
#[derive(Clone, Copy, Debug, PartialEq, Eq)]
pub enum Ended {
    /// The input was read to its end or to a request for the end.
    Finished,
    /// The input held bytes that are no request, or ended inside one. The refusal was written.
    BadFrame,
    /// A read failed.
    ReadFault,
    /// A write failed.
    WriteFault,
    /// No memory was found outside the handling of a request.
    Memory,
}
