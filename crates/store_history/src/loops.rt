//! Steps that are taken again and again, each time with another call that fails or another byte that is changed.
use crate::device::{Bent, Effect};
use crate::numbers::Numbers;
use crate::step::{Each, Step, StoreStep};
use crate::trouble::{Trouble, hold};
use crate::world::{Opened, World};
use std::alloc::Global;

/// The steps of a history before and behind the line that says what is done with them.
#[derive(Clone, Copy)]
pub struct Parts<'a> {
    /// What is done first, each time anew.
    pub head: &'a [Step],
    /// What is done behind it, each time otherwise.
    pub body: &'a [Step],
}

/// Does what a line says with the steps behind it, and adds what came.
pub fn take_each(
    alloc: Global,
    parts: &Parts<'_>,
    each: &Each,
    out: &mut String,
) -> Result<(), Trouble> {
    match each {
        Each::Stops(picks) => stops(alloc, parts, picks, out),
        Each::Fails(effects) => fails(alloc, parts, effects, out),
        Each::Changes { file, bytes } => changes(alloc, parts, *file, bytes, out),
        Each::Cuts(file) => cuts(alloc, parts, *file, out),
    }
}

/// How many calls of the device the body makes.
fn calls_of(alloc: Global, parts: &Parts<'_>) -> Result<u64, Trouble> {
    let mut world = World::after(alloc, parts.head)?;
    let before = world.switch.calls();
    let mut scratch = String::new(alloc);
    for step in parts.body {
        let failed = world.take(step, &mut scratch)?;
        hold(!failed, "a fault of a device that doesn't fail")?;
    }
    Ok(world.switch.calls().saturating_sub(before))
}

/// What crashes left.
#[derive(Drop)]
struct Left {
    /// The numbers of transactions that were found.
    found: Numbers,
    /// Those of them of which the last wasn't acknowledged.
    more: Numbers,
    /// The numbers of transactions that were shown.
    shown: Numbers,
    /// Whether there was no store.
    none: bool,
}

impl Left {
    /// Nothing yet.
    fn new(alloc: Global) -> Left {
        Left {
            found: Numbers::new(alloc),
            more: Numbers::new(alloc),
            shown: Numbers::new(alloc),
            none: false,
        }
    }

    /// Adds what an opening gave.
    fn add(&mut self, opened: Opened) -> Result<(), Trouble> {
        match opened {
            Opened::Store { found, shown, more } => {
                self.found.add(found)?;
                self.shown.add(shown)?;
                if more {
                    self.more.add(found)?;
                }
            }
            Opened::NotMade => self.none = true,
            Opened::Failed | Opened::Damaged => {
                return Err(Trouble::Wrong("a crash that leaves no store"));
            }
        }
        Ok(())
    }
}

/// Stops the body at each of its calls, and opens what crashes leave.
fn stops(alloc: Global, parts: &Parts<'_>, picks: &[u64], out: &mut String) -> Result<(), Trouble> {
    let mut left = Left::new(alloc);
    for behind in 0..calls_of(alloc, parts)?.saturating_add(1) {
        for pick in picks {
            left.add(stop_at(alloc, parts, behind, *pick)?)?;
        }
    }
    let Left {
        found,
        more,
        shown,
        none,
    } = &left;
    let none = if *none { " none" } else { "" };
    write!(out, "stops found{none}{found} more{more} shown{shown}\n")?;
    Ok(())
}

/// Stops the body behind some calls, and opens what a crash leaves.
fn stop_at(alloc: Global, parts: &Parts<'_>, behind: u64, pick: u64) -> Result<Opened, Trouble> {
    let mut world = World::after(alloc, parts.head)?;
    world.switch.stop_behind(behind);
    let mut scratch = String::new(alloc);
    for step in parts.body {
        if world.take(step, &mut scratch)? {
            break;
        }
    }
    let opened = world.crash(pick, &mut scratch)?;
    world.finish(&mut scratch)?;
    Ok(opened)
}

/// Has each call of the body fail once.
fn fails(
    alloc: Global,
    parts: &Parts<'_>,
    effects: &[Effect],
    out: &mut String,
) -> Result<(), Trouble> {
    let mut steps = Numbers::new(alloc);
    let wanted = answers(alloc, parts)?;
    for behind in 0..calls_of(alloc, parts)? {
        for effect in effects {
            steps.add(fail_at(alloc, parts, &wanted, behind, *effect)?)?;
        }
    }
    write!(out, "fails at{steps}\n")?;
    Ok(())
}

/// What each step of the body answers where no call fails.
fn answers(alloc: Global, parts: &Parts<'_>) -> Result<Vec<String>, Trouble> {
    let mut world = World::after(alloc, parts.head)?;
    let mut answers = Vec::new(alloc);
    for step in parts.body {
        let mut answer = String::new(alloc);
        let _failed = world.take(step, &mut answer)?;
        answers.push(answer)?;
    }
    Ok(answers)
}

/// Takes a step, and once more where the device failed. What it answers at last is what is wanted; but a sweep that is made again
/// has fewer blocks left. Says whether the device failed.
fn take_again(
    alloc: Global,
    world: &mut World,
    step: &Step,
    wanted: &str,
) -> Result<bool, Trouble> {
    let mut answer = String::new(alloc);
    let failed = world.take(step, &mut answer)?;
    if failed {
        answer.clear();
        let again = world.take(step, &mut answer)?;
        hold(!again, "one fault that is answered twice")?;
    }
    let is_sweep = matches!(step, Step::Store(StoreStep::Sweep));
    hold(
        is_sweep || answer.as_str() == wanted,
        "another answer behind a fault",
    )?;
    Ok(failed)
}

/// Has a call of the body fail, and makes the step again that failed. Gives its number, counted from 1; 0 where none failed.
fn fail_at(
    alloc: Global,
    parts: &Parts<'_>,
    wanted: &[String],
    behind: u64,
    effect: Effect,
) -> Result<u64, Trouble> {
    let mut world = World::after(alloc, parts.head)?;
    world.switch.fail_behind(behind, effect);
    let mut failed = 0;
    for (i, (step, wanted)) in parts.body.iter().zip(wanted).enumerate() {
        if take_again(alloc, &mut world, step, wanted.as_str())? {
            failed = (i as u64).saturating_add(1);
        }
    }
    let mut scratch = String::new(alloc);
    world.finish(&mut scratch)?;
    let _opened = world.crash(0, &mut scratch)?;
    world.finish(&mut scratch)?;
    Ok(failed)
}

/// Takes those steps of the body that can be taken, and adds what they answer.
fn take_body(
    alloc: Global,
    world: &mut World,
    body: &[Step],
    out: &mut String,
) -> Result<(), Trouble> {
    for step in body {
        if world.can_take(step) {
            let mut answer = String::new(alloc);
            let _failed = world.take(step, &mut answer)?;
            write!(out, " {answer};")?;
        }
    }
    out.push_str("\n")?;
    Ok(())
}

/// How many bytes a file has behind the head.
fn size_of(alloc: Global, parts: &Parts<'_>, file: u64) -> Result<u64, Trouble> {
    let mut world = World::after(alloc, parts.head)?;
    let bytes = world.bytes_of(file)?;
    Ok(bytes.len() as u64)
}

/// Sets each byte of a file to others before the body is taken.
fn changes(
    alloc: Global,
    parts: &Parts<'_>,
    file: u64,
    bytes: &[u8],
    out: &mut String,
) -> Result<(), Trouble> {
    for at in 0..size_of(alloc, parts, file)? {
        for byte in bytes {
            let byte = *byte;
            let mut world = World::after(alloc, parts.head)?;
            let _failed = world.take(&Step::Set(Bent { file, at, byte }), out)?;
            write!(out, "{at} {byte}:")?;
            take_body(alloc, &mut world, parts.body, out)?;
        }
    }
    Ok(())
}

/// Cuts a file to each length below its own before the body is taken.
fn cuts(alloc: Global, parts: &Parts<'_>, file: u64, out: &mut String) -> Result<(), Trouble> {
    for len in 0..size_of(alloc, parts, file)? {
        let mut world = World::after(alloc, parts.head)?;
        let _failed = world.take(&Step::Cut { file, len }, out)?;
        write!(out, "{len}:")?;
        take_body(alloc, &mut world, parts.body, out)?;
    }
    Ok(())
}
