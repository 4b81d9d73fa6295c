//! Goes through a history that it reads from its standard input, a step a line, with a store over a device that crashes, fails and is
//! changed where the history says so, and prints what each step answers. What holds of every store is compared at each opening: all
//! acknowledged transactions are there in order, and at most one more, which was tried; versions show the rows of a plain replay; each
//! fault of the device is counted and answered. Where it doesn't hold, `wrong` and what it is stands last, and the status is 1.
//!
//! `step` has the lines that there are, `loops` what is done with the steps behind a line for each call of the device or each byte.
#![tactic(auto)]

mod answer;
mod device;
mod loops;
mod numbers;
mod plain;
mod record;
mod rounds;
mod shown;
mod step;
mod taking;
mod text;
mod trouble;
mod world;

use loops::{Parts, take_each};
use std::alloc::{AllocError, Global};
use std::io;
use std::process::ExitCode;
use step::{Each, Line, Step, read_line};
use trouble::Trouble;
use world::World;

/// A history: steps, and maybe what is done with those behind them.
#[derive(Drop)]
struct History {
    head: Vec<Step>,
    each: Option<Each>,
    body: Vec<Step>,
}

impl History {
    /// No step.
    fn new(alloc: Global) -> History {
        History {
            head: Vec::new(alloc),
            each: None,
            body: Vec::new(alloc),
        }
    }

    /// Adds a step: behind the loop, where there is one.
    fn add(&mut self, step: Step) -> Result<(), AllocError> {
        if self.each.is_none() {
            self.head.push(step)?;
        } else {
            self.body.push(step)?;
        }
        Ok(())
    }

    /// Adds what a line says. Says whether it may stand here: there is one loop at most.
    fn add_line(&mut self, line: Line) -> Result<bool, AllocError> {
        match line {
            Line::Blank => Ok(true),
            Line::Step(step) => {
                self.add(step)?;
                Ok(true)
            }
            Line::Each(each) => {
                let is_first = self.each.is_none();
                self.each = Some(each);
                Ok(is_first)
            }
        }
    }
}

/// The history of the standard input; none, where a line isn't known.
fn read_history(rt: &(impl Input + AllocGlobal)) -> io::Result<Option<History>> {
    let alloc = rt.alloc();
    let mut history = History::new(alloc);
    for line in rt.lines(alloc) {
        let line = line?;
        let Some(line) = read_line(alloc, line.as_str())? else {
            return Ok(None);
        };
        if !history.add_line(line)? {
            return Ok(None);
        }
    }
    Ok(Some(history))
}

/// Takes the steps before a loop, and prints what each of them answers.
fn take_head(rt: &(impl Print + AllocGlobal), steps: &[Step]) -> io::Result<Result<(), Trouble>> {
    let mut world = match World::new(rt.alloc()) {
        Ok(world) => world,
        Err(trouble) => return Ok(Err(trouble)),
    };
    for step in steps {
        let mut answer = String::new(rt.alloc());
        if let Err(trouble) = world.take(step, &mut answer) {
            return Ok(Err(trouble));
        }
        if !answer.is_empty() {
            println!(rt; "{answer}")?;
        }
    }
    Ok(Ok(()))
}

/// Goes through a loop, and prints what came.
fn take_loop(
    rt: &(impl Print + AllocGlobal),
    history: &History,
    each: &Each,
) -> io::Result<Result<(), Trouble>> {
    let mut out = String::new(rt.alloc());
    let parts = Parts {
        head: &history.head,
        body: &history.body,
    };
    let done = take_each(rt.alloc(), &parts, each, &mut out);
    print!(rt; "{out}")?;
    Ok(done)
}

/// Goes through a history, and prints what came.
fn run(rt: &(impl Print + AllocGlobal), history: &History) -> io::Result<Result<(), Trouble>> {
    if let Err(trouble) = take_head(rt, &history.head)? {
        return Ok(Err(trouble));
    }
    match &history.each {
        Some(each) => take_loop(rt, history, each),
        None => Ok(Ok(())),
    }
}

fn main(rt: HostRuntime) -> io::Result<ExitCode> {
    let Some(history) = read_history(&rt)? else {
        println!(rt; "a line isn't known")?;
        return Ok(ExitCode::FAILURE);
    };
    match run(&rt, &history)? {
        Ok(()) => Ok(ExitCode::SUCCESS),
        Err(Trouble::Wrong(what)) => {
            println!(rt; "wrong: {what}")?;
            Ok(ExitCode::FAILURE)
        }
        Err(Trouble::Memory) => {
            println!(rt; "out of memory")?;
            Ok(ExitCode::FAILURE)
        }
    }
}
