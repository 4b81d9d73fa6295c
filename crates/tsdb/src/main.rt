//! The program: it makes the real devices, runs on its arguments, and ends with the status.
#![tactic(auto)]

mod patient;
mod words;

use patient::Patient;
use qd_ghost::Telling;
use qd_host::StdHost;
use qd_io::{StdSink, StdSource};
use qd_top::run_program;
use std::env;
use std::process::ExitCode;
use words::say;

fn main(rt: HostRuntime) -> ExitCode {
    let mut stdin = Patient::new(rt, rt.stdin());
    let mut stdout = Patient::new(rt, rt.stdout());
    let mut host = StdHost::new(rt, rt.alloc());
    let status = run_program(
        &rt,
        rt.alloc(),
        &Telling::of(&()),
        env::args(&rt),
        &mut StdSource::new(&mut stdin),
        &mut StdSink::new(&mut stdout),
        &mut host,
    );
    say(&rt, status, &stdin, &stdout, &host);
    ExitCode::from(status)
}
