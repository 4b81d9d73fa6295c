//! What a command line asks for.
ghost use Rattle.std.specs.Prelude.{◌≡◌, ◌≤◌, ◌^◌, ◌<◌, ◌↔◌, ℕ, [], ◌∷◌, codes, decimal, map, Some};
ghost use Rattle.qd_args.specs.declared.command.Command.{Command};
ghost use Rattle.qd_args.specs.Words.{AsksWith};

use crate::number::number_of;
use qd_base::Txt;

/// The greatest number of lines that can be asked for.
pub const MAX_GEN_LINES: u32 = 1_000_000;

/// The greatest number of connections that can be asked for.
pub const MAX_CONNECTIONS: u32 = 1_000_000;

/// What is spoken on a connection.
#[derive(Clone, Copy, Debug)]
pub enum Spoken {
    /// Frames, as `run` serves them.
    Frames,
    /// HTTP.
    Http,
    /// PostgreSQL's protocol.
    Pg,
}

/// What a command line asks for. Contracts see a folder as its bytes.
#[derive(Debug, Drop)]
pub enum Command {
    /// To serve the frames of the input.
    Run {
        /// The folder in which the database is kept, a text in UTF-8 that isn't empty and doesn't begin with a hyphen;
        /// none where it is kept in memory alone.
        dir: Option<Txt>,
    },
    /// To serve an input that the program makes for itself.
    Gen {
        /// The number that the values of its lines begin with.
        number: u32,
        /// The number of its lines, from 1 to 1,000,000.
        lines: u32,
    },
    /// To serve connections.
    Serve {
        /// The port that they come to, from 1 to 65,535.
        port: u16,
        /// The folder in which the database is kept, as for `Run`.
        dir: Txt,
        /// How many connections are served, from 1 to 1,000,000; without end where it is none.
        connections: Option<u32>,
        /// What is spoken on them.
        front: Spoken,
    },
}

/// The command that plain words ask for, beside the values that options gave.
pub(super) fn command_of(
    dir: Option<Txt>,
    connections: Option<u32>,
    front: Option<Spoken>,
    words: &[&str],
) -> Option<Command>
    ensures { (command : Command) → ((result ≡ Some command) ↔ AsksWith command dir connections front (map (λ w. w.now) words.now)) }
{
    match words {
        ["run"] => run_of(dir, connections, front),
        ["gen", number, lines] => gen_of(dir, connections, front, number, lines),
        ["serve", port] => serve_of(dir, connections, front, port),
        _ => None,
    }
}

/// The command `run`, which takes no number of connections and no front.
fn run_of(dir: Option<Txt>, connections: Option<u32>, front: Option<Spoken>) -> Option<Command>
    ensures { (command : Command) → ((result ≡ Some command) ↔ AsksWith command dir connections front (codes "run" ∷ [])) }
{
    match (connections, front) {
        (None, None) => Some(Command::Run { dir }),
        _ => None,
    }
}

/// The command `gen` of two numbers, where they are such and in range, which takes no option.
fn gen_of(
    dir: Option<Txt>,
    connections: Option<u32>,
    front: Option<Spoken>,
    number: &str,
    lines: &str,
) -> Option<Command>
    ensures { (command : Command) → ((result ≡ Some command) ↔ AsksWith command dir connections front (codes "gen" ∷ number.now ∷ lines.now ∷ [])) }
{
    match (dir, connections, front) {
        (None, None, None) => numbered(number, lines),
        _ => None,
    }
}

/// The command `gen` of two numbers.
fn numbered(number: &str, lines: &str) -> Option<Command>
    ensures some { (n l : ℕ) → n < 2 ^ 32 → 1 ≤ l → l ≤ MAX_GEN_LINES → number.now ≡ decimal n → lines.now ≡ decimal l → result ≡ Some (Command.Gen n l) }
    ensures cause { (command : Command) → result ≡ Some command → (n l : ℕ) × (command ≡ Command.Gen n l) × (n < 2 ^ 32) × (1 ≤ l) × (l ≤ MAX_GEN_LINES) × (number.now ≡ decimal n) × (lines.now ≡ decimal l) }
{
    let number = number_of(number)?;
    let lines = number_of(lines)?;
    if 1 <= lines && lines <= MAX_GEN_LINES {
        Some(Command::Gen { number, lines })
    } else {
        None
    }
}

/// The command `serve` of a port, which takes a folder. It speaks frames where no front was said.
fn serve_of(
    dir: Option<Txt>,
    connections: Option<u32>,
    front: Option<Spoken>,
    port: &str,
) -> Option<Command>
    ensures { (command : Command) → ((result ≡ Some command) ↔ AsksWith command dir connections front (codes "serve" ∷ port.now ∷ [])) }
{
    let dir = dir?;
    let port = port_of(port)?;
    Some(Command::Serve {
        port,
        dir,
        connections,
        front: front.unwrap_or(Spoken::Frames),
    })
}

/// The port of this number, where it is one.
fn port_of(word: &str) -> Option<u16>
    ensures some { (n : ℕ) → 1 ≤ n → n < 2 ^ 16 → word.now ≡ decimal n → result ≡ Some n }
    ensures cause { (n : ℕ) → result ≡ Some n → (1 ≤ n) × (n < 2 ^ 16) × (word.now ≡ decimal n) }
{
    let number = number_of(word)?;
    if 1 <= number && number <= u32::from(u16::MAX) {
        Some(number as u16)
    } else {
        None
    }
}
