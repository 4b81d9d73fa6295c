//! Steps of a history, each read from a line.
use crate::device::{Bent, Effect};
use crate::text::bytes_of;
use std::alloc::{AllocError, Global};

/// What a store may hold at most, where a history asks for less than is usual.
#[derive(Clone, Copy, Debug, PartialEq, Eq)]
pub struct Most {
    /// How many transactions.
    pub transactions: u64,
    /// From which length on a writer goes on to its next segment.
    pub segment: u64,
    /// From how many rows on those before all late ones stay where they lie.
    pub split: u64,
}

/// A step that is taken with a store.
#[derive(Drop)]
pub enum StoreStep {
    /// `lines WRITER TEXT`: commits a batch by a writer; `-` asks for a new one.
    Lines { writer: Option<u32>, text: Vec<u8> },
    /// `sql WRITER TEXT`: commits a statement that writes.
    Sql { writer: Option<u32>, text: Vec<u8> },
    /// `end WRITER`: forgets a writer.
    End(u32),
    /// `round N`: drafts, merges and publishes the transactions behind the current version, up to a number; `round` up to the last.
    /// The first of them aside, a transaction that sets keys ends the round in front of it.
    Round(Option<u64>),
    /// `twice N`: merges them twice, publishes one merge, and then the other one.
    Twice(u64),
    /// `retire ROW`: retires a version; `retire` the first one that isn't the current one.
    Retire(Option<u8>),
    /// `sweep`: removes all blocks that no version lists.
    Sweep,
    /// `check`: compares each live version with the plain replay.
    Check,
    /// `rows`: shows the rows of the current version.
    Rows,
    /// `counts`: shows how many transactions there are, and how many the current version shows.
    Counts,
    /// `places`: shows where the transactions stand: log, segment, start and length of each.
    Places,
    /// `listed`: shows the blocks that the current version lists.
    Listed,
}

/// A step.
#[derive(Drop)]
pub enum Step {
    /// Is taken with a store.
    Store(StoreStep),
    /// `new`: makes a store on a new device, or on the one at hand where no store was made there. `new N BYTES` is for so many
    /// transactions, in segments of so many bytes; `new N BYTES ROWS` splits a part where so many rows stand before all late ones.
    New(Most),
    /// `open`: opens the device at hand again, as it reads.
    Open,
    /// `crash PICK`: lets the device crash, and opens what it leaves.
    Crash(u64),
    /// `session`: opens the device at hand for sessions, or makes a store there.
    Session,
    /// `ask FRAMES`: serves a session of these requests.
    Ask(Vec<u8>),
    /// `fail N EFFECT`: has the device's call behind N others fail, with `nothing`, `half` or `all` of it done.
    Fail { behind: u64, effect: Effect },
    /// `stop N`: has each call behind N others fail.
    Stop(u64),
    /// `mend`: has no call fail any more, and no byte read otherwise.
    Mend,
    /// `bend FILE AT BYTE`: has a byte read otherwise.
    Bend(Bent),
    /// `set FILE AT BYTE`: closes the store, and changes a byte.
    Set(Bent),
    /// `cut FILE LENGTH`: closes the store, and cuts a file.
    Cut { file: u64, len: u64 },
    /// `bytes FILE`: closes the store, and shows the bytes of a file.
    Bytes(u64),
    /// `blocks N`: closes the store, and shows which of the first N blocks have bytes.
    Blocks(u64),
    /// `calls`: shows how many calls the device has had since this was asked last.
    Calls,
}

/// What is done with the steps behind a line, again and again, each time behind the steps before it.
#[derive(Drop)]
pub enum Each {
    /// `stops PICK ..`: stops them at each of their calls, and opens what these crashes leave.
    Stops(Vec<u64>),
    /// `fails EFFECT ..`: has each of their calls fail once, and makes what failed again.
    Fails(Vec<Effect>),
    /// `changes FILE BYTE ..`: sets each byte of a file to these before they are taken.
    Changes { file: u64, bytes: Vec<u8> },
    /// `cuts FILE`: cuts a file to each length below its own before they are taken.
    Cuts(u64),
}

/// What a line says.
#[derive(Drop)]
pub enum Line {
    /// Nothing.
    Blank,
    /// A step.
    Step(Step),
    /// What is done with the steps behind it.
    Each(Each),
}

/// The first words of lines whose other words are numbers.
#[derive(Clone, Copy, Debug, PartialEq, Eq)]
enum Verb {
    New,
    End,
    Round,
    Twice,
    Retire,
    Sweep,
    Check,
    Rows,
    Counts,
    Places,
    Listed,
    Open,
    Crash,
    Session,
    Stop,
    Mend,
    Bend,
    Set,
    Cut,
    Bytes,
    Blocks,
    Calls,
    Stops,
    Changes,
    Cuts,
}

const VERBS: [(&str, Verb); 25] = [
    ("new", Verb::New),
    ("end", Verb::End),
    ("round", Verb::Round),
    ("twice", Verb::Twice),
    ("retire", Verb::Retire),
    ("sweep", Verb::Sweep),
    ("check", Verb::Check),
    ("rows", Verb::Rows),
    ("counts", Verb::Counts),
    ("places", Verb::Places),
    ("listed", Verb::Listed),
    ("open", Verb::Open),
    ("crash", Verb::Crash),
    ("session", Verb::Session),
    ("stop", Verb::Stop),
    ("mend", Verb::Mend),
    ("bend", Verb::Bend),
    ("set", Verb::Set),
    ("cut", Verb::Cut),
    ("bytes", Verb::Bytes),
    ("blocks", Verb::Blocks),
    ("calls", Verb::Calls),
    ("stops", Verb::Stops),
    ("changes", Verb::Changes),
    ("cuts", Verb::Cuts),
];

/// The verb that a word names.
fn verb_of(word: &str) -> Option<Verb> {
    for (name, verb) in VERBS {
        if name == word {
            return Some(verb);
        }
    }
    None
}

/// What lies before the first blank of a text, and behind it.
fn first_word(text: &str) -> (&str, &str) {
    text.split_once(' ').unwrap_or((text, ""))
}

/// Reads a line; none, where it says nothing that is known. A line that begins with `#` says nothing.
pub fn read_line(alloc: Global, line: &str) -> Result<Option<Line>, AllocError> {
    let (word, rest) = first_word(line);
    if word == "" || word.starts_with('#') {
        return Ok(Some(Line::Blank));
    }
    if word == "lines" || word == "sql" {
        return written(alloc, word == "sql", rest);
    }
    if word == "ask" {
        let frames = bytes_of(alloc, rest.as_bytes())?;
        return Ok(Some(Line::Step(Step::Ask(frames))));
    }
    if word == "fail" || word == "fails" {
        return failing(alloc, word == "fails", rest);
    }
    match verb_of(word) {
        Some(verb) => with_numbers(alloc, verb, rest),
        None => Ok(None),
    }
}

/// Reads a writer and a text.
fn written(alloc: Global, is_sql: bool, text: &str) -> Result<Option<Line>, AllocError> {
    let (word, rest) = first_word(text);
    let writer = match word.parse::<u32>() {
        Ok(writer) => Some(writer),
        Err(_) if word == "-" => None,
        Err(_) => return Ok(None),
    };
    let text = bytes_of(alloc, rest.as_bytes())?;
    let step = if is_sql {
        StoreStep::Sql { writer, text }
    } else {
        StoreStep::Lines { writer, text }
    };
    Ok(Some(Line::Step(Step::Store(step))))
}

/// The effect that a word names.
fn effect_of(word: &str) -> Option<Effect> {
    match word {
        "nothing" => Some(Effect::Nothing),
        "half" => Some(Effect::Half),
        "all" => Some(Effect::All),
        _ => None,
    }
}

/// Reads a call that fails, or how each one does.
fn failing(alloc: Global, each: bool, text: &str) -> Result<Option<Line>, AllocError> {
    if each {
        let mut effects = Vec::new(alloc);
        for word in text.split(' ') {
            match effect_of(word) {
                Some(effect) => effects.push(effect)?,
                None => return Ok(None),
            }
        }
        return Ok(Some(Line::Each(Each::Fails(effects))));
    }
    let (word, rest) = first_word(text);
    match (word.parse::<u64>(), effect_of(rest)) {
        (Ok(behind), Some(effect)) => Ok(Some(Line::Step(Step::Fail { behind, effect }))),
        _ => Ok(None),
    }
}

/// Reads a verb's numbers.
fn with_numbers(alloc: Global, verb: Verb, text: &str) -> Result<Option<Line>, AllocError> {
    let mut numbers = Vec::new(alloc);
    if text != "" {
        for word in text.split(' ') {
            match word.parse::<u64>() {
                Ok(number) => numbers.push(number)?,
                Err(_) => return Ok(None),
            }
        }
    }
    if let Some(step) = step_of(verb, &numbers) {
        return Ok(Some(Line::Step(step)));
    }
    if let Some(step) = store_step_of(verb, &numbers) {
        return Ok(Some(Line::Step(Step::Store(step))));
    }
    match each_of(alloc, verb, &numbers)? {
        Some(each) => Ok(Some(Line::Each(each))),
        None => Ok(None),
    }
}

/// The step with a store that a verb and its numbers say.
fn store_step_of(verb: Verb, numbers: &[u64]) -> Option<StoreStep> {
    match (verb, numbers) {
        (Verb::End, [writer]) => Some(StoreStep::End(u32::try_from(*writer).ok()?)),
        (Verb::Round, []) => Some(StoreStep::Round(None)),
        (Verb::Round, [upto]) => Some(StoreStep::Round(Some(*upto))),
        (Verb::Twice, [upto]) => Some(StoreStep::Twice(*upto)),
        (Verb::Retire, []) => Some(StoreStep::Retire(None)),
        (Verb::Retire, [row]) => Some(StoreStep::Retire(Some(u8::try_from(*row).ok()?))),
        (Verb::Sweep, []) => Some(StoreStep::Sweep),
        (Verb::Check, []) => Some(StoreStep::Check),
        (Verb::Rows, []) => Some(StoreStep::Rows),
        (Verb::Counts, []) => Some(StoreStep::Counts),
        (Verb::Places, []) => Some(StoreStep::Places),
        (Verb::Listed, []) => Some(StoreStep::Listed),
        _ => None,
    }
}

/// The byte that three numbers name.
fn bent_of(file: u64, at: u64, byte: u64) -> Option<Bent> {
    let byte = u8::try_from(byte).ok()?;
    Some(Bent { file, at, byte })
}

/// Another step that a verb and its numbers say.
fn step_of(verb: Verb, numbers: &[u64]) -> Option<Step> {
    match (verb, numbers) {
        (Verb::New, []) => Some(Step::New(Most {
            transactions: u64::MAX,
            segment: 67_108_864,
            split: 4_096,
        })),
        (Verb::New, [transactions, segment, split]) => Some(Step::New(Most {
            transactions: *transactions,
            segment: *segment,
            split: *split,
        })),
        (Verb::New, [transactions, segment]) => Some(Step::New(Most {
            transactions: *transactions,
            segment: *segment,
            split: 4_096,
        })),
        (Verb::Open, []) => Some(Step::Open),
        (Verb::Crash, [pick]) => Some(Step::Crash(*pick)),
        (Verb::Session, []) => Some(Step::Session),
        (Verb::Stop, [behind]) => Some(Step::Stop(*behind)),
        (Verb::Mend, []) => Some(Step::Mend),
        (Verb::Bend, [file, at, byte]) => Some(Step::Bend(bent_of(*file, *at, *byte)?)),
        (Verb::Set, [file, at, byte]) => Some(Step::Set(bent_of(*file, *at, *byte)?)),
        (Verb::Cut, [file, len]) => Some(Step::Cut {
            file: *file,
            len: *len,
        }),
        (Verb::Bytes, [file]) => Some(Step::Bytes(*file)),
        (Verb::Blocks, [count]) => Some(Step::Blocks(*count)),
        (Verb::Calls, []) => Some(Step::Calls),
        _ => None,
    }
}

/// What a verb and its numbers say to do with the steps behind them.
fn each_of(alloc: Global, verb: Verb, numbers: &[u64]) -> Result<Option<Each>, AllocError> {
    match (verb, numbers) {
        (Verb::Stops, [_, ..]) => {
            let picks = Vec::from_slice(alloc, numbers)?;
            Ok(Some(Each::Stops(picks)))
        }
        (Verb::Changes, [file, values @ ..]) => {
            let mut bytes = Vec::new(alloc);
            for value in values {
                bytes.push((*value % 256) as u8)?;
            }
            Ok(Some(Each::Changes { file: *file, bytes }))
        }
        (Verb::Cuts, [file]) => Ok(Some(Each::Cuts(*file))),
        _ => Ok(None),
    }
}
