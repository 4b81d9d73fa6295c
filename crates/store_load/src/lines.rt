//! What is loaded: lines in order of time.
ghost use Rattle.qd_base.specs.declared.limits.TheConstants.{MAX_TXNS};
ghost use Rattle.std.specs.Prelude.{◌≤◌, IfSome};
ghost use Rattle.store_load.specs.Loads.{IsFew};

use qd_base::MAX_TXNS;
use std::alloc::{AllocError, Global};
use std::env::Args;

/// The most lines of a transaction.
const LONGEST: u64 = 100_000;

/// The stamp of the first line, in nanoseconds: 2024-01-01T00:00Z.
const START: u64 = 1_704_067_200_000_000_000;

/// How many nanoseconds lie between two lines.
const STEP: u64 = 1_000_000;

/// What is loaded.
#[derive(Clone, Copy, Debug)]
pub struct Load {
    /// How many transactions are committed.
    pub transactions: u64,
    /// How many lines each of them has.
    pub lines: u64,
}

/// What the words ask for.
#[derive(Drop)]
pub struct Asked {
    /// The folder of the store.
    pub folder: String,
    /// What is loaded into a new store; nothing, where the store that is there is opened.
    pub load: Option<Load>,
}

/// Reads the words behind the program's name.
pub fn read_words(words: Args) -> Option<Asked>
    ensures few { IfSome result (λ words. IfSome words.load IsFew) }
{
    let mut words = words;
    let _program = words.next();
    let folder = words.next()?;
    let Some(transactions) = words.next() else {
        return Some(Asked { folder, load: None });
    };
    let load = load_of(transactions.as_str(), words.next()?.as_str())?;
    Some(Asked {
        folder,
        load: Some(load),
    })
}

/// Reads two numbers that aren't too great.
fn load_of(transactions: &str, lines: &str) -> Option<Load>
    ensures few { IfSome result IsFew }
{
    let transactions = transactions.parse::<u64>().ok()?;
    let lines = lines.parse::<u64>().ok()?;
    if transactions > u64::from(MAX_TXNS) || lines > LONGEST {
        return None;
    }
    Some(Load {
        transactions,
        lines,
    })
}

/// Makes the texts of all transactions.
pub fn texts_of(alloc: Global, load: Load) -> Result<Vec<String>, AllocError>
    requires few { IsFew load }
{
    let mut texts = Vec::new(alloc);
    for i in 0..load.transactions {
        texts.push(text_of(alloc, i, load.lines)?)?;
    }
    Ok(texts)
}

/// Makes the text of a transaction.
fn text_of(alloc: Global, i: u64, lines: u64) -> Result<String, AllocError>
    requires transaction { i ≤ MAX_TXNS }
    requires lines { lines ≤ 100000 }
{
    let mut text = String::new(alloc);
    for k in 0..lines {
        push_line(&mut text, i * lines + k)?;
    }
    Ok(text)
}

/// Adds a line of one of 64 hosts: a tag, three numbers, a truth value and a text.
fn push_line(text: &mut String, n: u64) -> Result<(), AllocError>
    requires room { n ≤ 500000000000 }
{
    let host = n % 64;
    let (a, b, c) = (n % 1_000, n * 7 % 100_003, n * 31 % 1_000_003);
    let truth = if n % 3 == 0 { 't' } else { 'f' };
    let stamp = START + n * STEP;
    write!(
        text,
        "load,host=h{host} a={a}i,b={b}i,c={c}i,ok={truth},note=\"n{a}\" {stamp}\n"
    )
}
