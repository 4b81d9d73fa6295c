//! The words, read.
ghost use Rattle.std.specs.Prelude.{◌≡◌, ◌↔◌, ℕ, List, ◌∷◌, codes, drop, map, option_map, IfOk, Some};
ghost use Rattle.qd_args.specs.declared.command.Command.{Command};
ghost use Rattle.qd_args.specs.Parts.{IsLine, SaidAsks, said_of};
ghost use Rattle.qd_args.specs.Plain.{ArePlain};
ghost use Rattle.qd_args.specs.Words.{Asks, AsksWith};

use crate::command::{Command, Spoken, command_of};
use crate::line::{Line, line_of};
use clap::error::ErrorKind;
use clap::{Arg, Command as CommandLine};
use qd_base::{Memory, Txt};
use std::alloc::{AllocError, Global};

/// The words of a command line that are no options, by this name.
const WORDS: &str = "words";

/// Reads the words of a command line, without the program's name: the command that they ask for, and `None` exactly
/// where they ask for none.
///
/// The options are taken out first, from wherever they stand. A word that begins with a hyphen and is no such option
/// asks for nothing, nor does one that isn't UTF-8. What is left is read by `clap`.
/// It takes time and memory linear in the words.
pub fn read_words(alloc: Global, words: &[Txt]) -> Result<Option<Command>, Memory>
    ensures exact { IfOk result (λ found. (command : Command) → ((found ≡ Some command) ↔ Asks command words.now)) }
{
    match line_of(alloc, words)? {
        Some(line) => read_line(alloc, line),
        None => Ok(None),
    }
}

/// Reads what a line says.
fn read_line(alloc: Global, line: Line<'_>) -> Result<Option<Command>, Memory>
    requires { IsLine line }
    ensures { IfOk result (λ found. (command : Command) → ((found ≡ Some command) ↔ SaidAsks command (said_of line.entry))) }
{
    let dir = owned(alloc, line.dir)?;
    read_texts(
        alloc,
        dir,
        line.connections,
        line.front,
        line.texts.as_slice(),
    )
}

/// A copy of a folder's name.
fn owned(alloc: Global, dir: Option<&[u8]>) -> Result<Option<Txt>, Memory>
    ensures { IfOk result (λ copy. copy ≡ option_map (λ d. d.now) dir.entry) }
{
    match dir {
        Some(dir) => Ok(Some(Txt::from_bytes(alloc, dir)?)),
        None => Ok(None),
    }
}

/// Reads plain texts behind the program's name, beside the values of options.
fn read_texts(
    alloc: Global,
    dir: Option<Txt>,
    connections: Option<u32>,
    front: Option<Spoken>,
    texts: &[&str],
) -> Result<Option<Command>, Memory>
    requires { (words : List (List ℕ)) × (map (λ t. t.now) texts.now ≡ codes "tsdb" ∷ words) × ArePlain words }
    ensures { IfOk result (λ found. (command : Command) → ((found ≡ Some command) ↔ AsksWith command dir connections front (drop 1 (map (λ t. t.now) texts.now)))) }
{
    let words = Arg::new(alloc, WORDS).num_args(0..);
    let line = CommandLine::new(alloc, "tsdb").arg(words)?;
    match line.try_get_matches_from(texts) {
        Ok(matches) => match matches.get_strs(WORDS) {
            Some(words) => Ok(command_of(dir, connections, front, words)),
            None => Ok(None),
        },
        Err(error) => {
            if error.kind() == ErrorKind::OutOfMemory {
                return Err(AllocError);
            }
            Ok(None)
        }
    }
}
