//! Times a store over a folder. `store_load FOLDER TRANSACTIONS LINES` makes a store in a folder without files, commits so many
//! transactions of so many lines, shows them by one draft, merge and publication, and opens the store again; it prints what each step
//! took, in microseconds. `store_load FOLDER` opens a store that is there.
#![tactic(auto)]

ghost use Rattle.store_load.specs.Loads.{IsFew};

mod lines;
mod timed;

use lines::{Asked, Load, read_words, texts_of};
use qd_base::Limits;
use qd_store::{Store, Unmade};
use qd_volume::{FolderVolume, Refusal, Volume};
use std::env;
use std::process::ExitCode;
use std::time::Instant;
use timed::{Times, commit_all, micros, show_all};

/// Where there is no store.
fn fault<V: Volume + Drop>(unmade: Unmade<V>) -> anyhow::Error {
    let Unmade { volume: _, why } = unmade;
    anyhow::Error::from(why)
}

/// Where a folder isn't opened.
fn refused(refusal: Refusal) -> anyhow::Error {
    anyhow::Error::from(refusal.fault())
}

/// Makes a store in a folder, fills it, shows all of it, and opens it again. It prints what each step took.
fn fill(rt: HostRuntime, folder: &[u8], load: Load) -> anyhow::Result<()>
    requires few { IsFew load }
{
    let alloc = rt.alloc();
    let texts = texts_of(alloc, load)?;
    let mut times = Times::none();
    let start = Instant::now(&rt)?;
    let volume = FolderVolume::open(rt, alloc, folder).map_err(refused)?;
    let mut store = Store::create(alloc, volume, Limits::usual()).map_err(fault)?;
    times.begun = micros(&rt, &start)?;
    commit_all(&rt, alloc, &mut store, texts.as_slice(), &mut times)?;
    show_all(&rt, alloc, &mut store, &mut times)?;
    drop(store.into_volume());
    print!(rt; "{times} ")?;
    open(rt, folder)
}

/// Opens the store of a folder, and prints what it took, and how many transactions there are.
fn open(rt: HostRuntime, folder: &[u8]) -> anyhow::Result<()> {
    let alloc = rt.alloc();
    let start = Instant::now(&rt)?;
    let volume = FolderVolume::open(rt, alloc, folder).map_err(refused)?;
    let store = Store::open_store(alloc, volume, Limits::usual()).map_err(fault)?;
    let opened = micros(&rt, &start)?;
    println!(rt; "opened {opened} transactions {}", store.hist_len())?;
    Ok(())
}

fn main(rt: HostRuntime) -> anyhow::Result<ExitCode> {
    let Some(Asked { folder, load }) = read_words(env::args(&rt)?) else {
        println!(rt; "usage: store_load FOLDER [TRANSACTIONS LINES]")?;
        return Ok(ExitCode::FAILURE);
    };
    let folder = folder.as_str().as_bytes();
    match load {
        Some(load) => fill(rt, folder, load)?,
        None => open(rt, folder)?,
    }
    Ok(ExitCode::SUCCESS)
}
