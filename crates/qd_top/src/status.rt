//! What the program ends with.
ghost use Rattle.std.specs.Prelude.{◌≡◌};
ghost use Rattle.qd_top.specs.Status.{number_of, status_of};

use qd_session::Ended;

/// What the program ends with.
#[derive(Clone, Copy, Debug, PartialEq, Eq)]
pub enum Status {
    /// The input was read to its end or to a request for the end.
    Finished,
    /// The words are none that the program knows.
    Usage,
    /// The input held bytes that are no request, or ended inside one.
    BadFrame,
    /// A read failed.
    ReadFault,
    /// A write failed.
    WriteFault,
    /// The host gave no volume, or the volume failed while its store was opened or made.
    NoVolume,
    /// The files of the store are damaged.
    Damaged,
    /// No memory was found outside a request.
    NoMemory,
    /// The host gave no listener, or the listener failed.
    NoListener,
}

impl Status {
    /// Gives the number that the process ends with.
    pub fn number(self) -> u8
        ensures number { result ≡ number_of self }
    {
        match self {
            Status::Finished => 0,
            Status::Usage => 1,
            Status::BadFrame => 2,
            Status::ReadFault => 3,
            Status::WriteFault => 4,
            Status::NoVolume => 5,
            Status::Damaged => 6,
            Status::NoMemory => 7,
            Status::NoListener => 8,
        }
    }

    /// Gives the status of a session that ended so.
    pub fn of(ended: Ended) -> Status
        ensures status { result ≡ status_of ended }
    {
        match ended {
            Ended::Finished => Status::Finished,
            Ended::BadFrame => Status::BadFrame,
            Ended::ReadFault => Status::ReadFault,
            Ended::WriteFault => Status::WriteFault,
            Ended::Memory => Status::NoMemory,
        }
    }
}
