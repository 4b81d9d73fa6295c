//! Where a head ends: behind its empty line.
ghost use Rattle.std.specs.Prelude.{◌≡◌, ℕ, List};
ghost use Rattle.qd_http.specs.Reading.{Finds, IsSearch, lines_after};

/// How far the lines of a head have come.
#[derive(Clone, Copy, Debug, PartialEq, Eq)]
pub(crate) enum Lines {
    /// Line ends alone have come.
    Before,
    /// A line is being read.
    Inside,
    /// A line has ended.
    AfterLine,
    /// A line has ended, and CR stands behind it.
    AfterReturn,
    /// The empty line has come.
    Done,
}

impl Lines {
    // What the next byte makes of it.
    fn after(self, byte: u8) -> Lines
        ensures { result ≡ lines_after self byte }
    {
        match self {
            Lines::Before => {
                if byte == b'\r' || byte == b'\n' {
                    Lines::Before
                } else {
                    Lines::Inside
                }
            }
            Lines::Inside => {
                if byte == b'\n' {
                    Lines::AfterLine
                } else {
                    Lines::Inside
                }
            }
            Lines::AfterLine => {
                if byte == b'\n' {
                    Lines::Done
                } else if byte == b'\r' {
                    Lines::AfterReturn
                } else {
                    Lines::Inside
                }
            }
            Lines::AfterReturn => {
                if byte == b'\n' {
                    Lines::Done
                } else {
                    Lines::Inside
                }
            }
            Lines::Done => Lines::Done,
        }
    }
}

/// A search for the end of a head, which goes on where it stopped.
#[derive(Clone, Copy, Debug)]
pub(crate) struct Search {
    /// How many bytes have been looked at.
    pub seen: usize,
    /// What they are.
    pub lines: Lines,
}

/// What a search finds.
#[derive(Clone, Copy, Debug)]
pub(crate) enum Found {
    /// The head ends behind so many bytes.
    End(usize),
    /// It does not end in these bytes.
    Open(Search),
}

impl Search {
    /// Begins a search.
    pub fn new() -> Search
        ensures { (bytes : List ℕ) → IsSearch result bytes }
    {
        Search {
            seen: 0,
            lines: Lines::Before,
        }
    }

    /// Goes on with a search, in time linear in the bytes that it has not looked at.
    pub fn go_on(self, bytes: &[u8]) -> Found
        requires { IsSearch self bytes.now }
        ensures { Finds bytes.now result }
    {
        let mut lines = self.lines;
        for i in self.seen..bytes.len() {
            lines = lines.after(bytes[i]);
            if lines == Lines::Done {
                return Found::End(i + 1);
            }
        }
        Found::Open(Search {
            seen: bytes.len(),
            lines,
        })
    }
}
