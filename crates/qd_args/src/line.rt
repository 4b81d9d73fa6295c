//! A command line, read piece by piece.
ghost use Rattle.std.specs.Prelude.{◌≡◌, ◌↔◌, Some, None, true, false, IfOk, IfSome, MatchOption};
ghost use Rattle.qd_args.specs.declared.command.Command.{Command};
ghost use Rattle.qd_args.specs.Parts.{IsLine, IsPlain, SaidAsks, and_piece, said_by, said_of, unsaid};
ghost use Rattle.qd_args.specs.Words.{Asks};

use crate::command::Spoken;
use crate::piece::{Piece, first_piece};
use qd_base::{Memory, Txt};
use std::alloc::Global;

/// What a command line says.
#[derive(Drop)]
pub(super) struct Line<'a> {
    /// A name for the program, and behind it the words that are no options.
    pub(super) texts: Vec<&'a str>,
    /// The folder that an option names.
    pub(super) dir: Option<&'a [u8]>,
    /// The number of connections that an option gives.
    pub(super) connections: Option<u32>,
    /// The front that an option names.
    pub(super) front: Option<Spoken>,
}

impl<'a> Line<'a> {
    /// A line that says nothing yet.
    fn new(alloc: Global) -> Result<Line<'a>, Memory>
        ensures texts { IfOk result (λ line. IsLine line) }
        ensures unsaid { IfOk result (λ line. said_of line ≡ unsaid) }
    {
        let mut texts = Vec::new(alloc);
        texts.push("tsdb")?;
        Ok(Line {
            texts,
            dir: None,
            connections: None,
            front: None,
        })
    }

    /// Puts a piece behind those that were said before, and tells whether it may stand there: an option that was said before
    /// may not.
    fn say(&mut self, piece: Piece<'a>) -> Result<bool, Memory>
        requires line { IsLine self.old }
        requires plain { IsPlain (said_by piece) }
        ensures texts { IfOk result (λ fits. fits ≡ true → IsLine self.new) }
        ensures said { IfOk result (λ fits. fits ≡ true → and_piece (said_of self.old) (said_by piece.entry) ≡ Some (said_of self.new)) }
        ensures twice { IfOk result (λ fits. fits ≡ false → and_piece (said_of self.old) (said_by piece.entry) ≡ None) }
    {
        match piece {
            Piece::Word(text) => {
                self.texts.push(text)?;
                Ok(true)
            }
            Piece::Folder(dir) => Ok(self.dir.replace(dir).is_none()),
            Piece::Connections(number) => Ok(self.connections.replace(number).is_none()),
            Piece::Front(front) => Ok(self.front.replace(front).is_none()),
        }
    }
}

/// Reads words as a line, where they are one.
pub(super) fn line_of(alloc: Global, words: &[Txt]) -> Result<Option<Line<'_>>, Memory>
    ensures asks { IfOk result (λ found. (command : Command) → MatchOption found (Asks command words.now → ⊥) (λ line. Asks command words.now ↔ SaidAsks command (said_of line))) }
    ensures texts { IfOk result (λ found. IfSome found (λ line. IsLine line)) }
{
    let mut line = Line::new(alloc)?;
    let mut rest = words;
    while !rest.is_empty() {
        let Some((piece, behind)) = first_piece(rest) else {
            return Ok(None);
        };
        if !line.say(piece)? {
            return Ok(None);
        }
        rest = behind;
    }
    Ok(Some(line))
}
