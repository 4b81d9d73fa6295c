//! The pieces of a command line: its plain words, and its options with their values.
ghost use Rattle.std.specs.Prelude.{◌≡◌, ◌≢◌, ℕ, List, ◌++◌, MatchOption};
ghost use Rattle.qd_args.specs.Plain.{IsPlainText};
ghost use Rattle.qd_args.specs.declared.command.Spoken.{Spoken};
ghost use Rattle.qd_args.specs.Pieces.{IsCount, IsFolder, word_of};
ghost use Rattle.qd_args.specs.Parts.{BeginsWith, BeginsWithNone, IsBehind, said_by};

use crate::command::{MAX_CONNECTIONS, Spoken};
use crate::number::number_of;
use qd_base::Txt;
use std::str;

/// A piece of a command line.
#[derive(Clone, Copy, Debug)]
pub(super) enum Piece<'a> {
    /// A word that is no option.
    Word(&'a str),
    /// The folder that an option names.
    Folder(&'a [u8]),
    /// The number of connections that an option gives.
    Connections(u32),
    /// The front that an option names.
    Front(Spoken),
}

/// The piece that the words begin with, and the words behind it.
pub(super) fn first_piece(words: &[Txt]) -> Option<(Piece<'_>, &[Txt])>
    ensures { MatchOption result (BeginsWithNone words.now) (λ p. BeginsWith words.now (said_by p.0) p.1.now) }
{
    if let Some((value, rest)) = value_of(b"--dir", words) {
        return Some((Piece::Folder(folder_of(value)?), rest));
    }
    if let Some((value, rest)) = value_of(b"--connections", words) {
        return Some((Piece::Connections(count_of(value)?), rest));
    }
    if let Some((value, rest)) = value_of(b"--front", words) {
        return Some((Piece::Front(front_of(value)?), rest));
    }
    let (word, rest) = words.split_first()?;
    Some((Piece::Word(plain_text(word.bytes())?), rest))
}

/// The value of the option of this name, where the words begin with it, and the words behind it.
fn value_of<'a>(name: &[u8], words: &'a [Txt]) -> Option<(&'a [u8], &'a [Txt])>
    ensures { MatchOption result ((value : List ℕ) (rest : List (List ℕ)) → IsBehind name.now words.now value rest → ⊥) (λ p. IsBehind name.now words.now p.0.now p.1.now) }
{
    let (word, rest) = words.split_first()?;
    let tail = behind(word.bytes(), name)?;
    if tail.is_empty() {
        let (value, rest) = rest.split_first()?;
        return Some((value.bytes(), rest));
    }
    Some((behind(tail, b"=")?, rest))
}

/// What stands behind these bytes, where the word begins with them.
fn behind<'a>(word: &'a [u8], bytes: &[u8]) -> Option<&'a [u8]>
    ensures { MatchOption result ((tail : List ℕ) → word.now ≢ bytes.now ++ tail) (λ tail. word.now ≡ bytes.now ++ tail.now) }
{
    word.strip_prefix(bytes)
}

/// A word as a folder's name, where it is one.
fn folder_of(word: &[u8]) -> Option<&[u8]>
    ensures { MatchOption result (IsFolder word.now → ⊥) (λ dir. (dir.now ≡ word.now) × IsFolder word.now) }
{
    plain_text(word)?;
    if word.is_empty() { None } else { Some(word) }
}

/// A word as a number of connections, where it is one.
fn count_of(word: &[u8]) -> Option<u32>
    ensures { MatchOption result ((n : ℕ) → IsCount n word.now → ⊥) (λ n. IsCount n word.now) }
{
    let number = number_of(plain_text(word)?)?;
    if 1 <= number && number <= MAX_CONNECTIONS {
        Some(number)
    } else {
        None
    }
}

/// The front of this word, where it is the word of one.
fn front_of(word: &[u8]) -> Option<Spoken>
    ensures { MatchOption result ((front : Spoken) → word.now ≢ word_of front) (λ front. word.now ≡ word_of front) }
{
    match word {
        b"frames" => Some(Spoken::Frames),
        b"http" => Some(Spoken::Http),
        b"pg" => Some(Spoken::Pg),
        _ => None,
    }
}

/// A word as a text, where it is one and doesn't begin with a hyphen.
fn plain_text(word: &[u8]) -> Option<&str>
    ensures { MatchOption result (IsPlainText word.now → ⊥) (λ text. (text.now ≡ word.now) × IsPlainText word.now) }
{
    match word {
        [b'-', ..] => None,
        _ => str::from_utf8(word).ok(),
    }
}
