//! What the program says on standard error where it doesn't end with status 0: one line, with what failed and what can be done.
use crate::patient::Patient;
use qd_host::{StdHost, Trouble};
use qd_volume::Refusal;
use std::io::{Error, Result as IoResult};

/// Says why a run ended with a status. Where standard error can't be written nobody can be told.
pub fn say<I, O>(
    rt: &HostRuntime,
    status: u8,
    stdin: &Patient<HostRuntime, I>,
    stdout: &Patient<HostRuntime, O>,
    host: &StdHost<HostRuntime>,
) {
    let _told = match status {
        0 => Ok(()),
        1 => eprintln!(rt;
            "tsdb: these words are no command: the usage line on standard output has those that are"
        ),
        2 => eprintln!(rt;
            "tsdb: standard input is no request from the byte on that the last line of standard output names: the requests before it were carried out; mend the rest and send it again"
        ),
        3 => say_input(rt, stdin.error()),
        4 => say_output(rt, stdout.error()),
        5 => say_folder(rt, name_of(host), host.trouble()),
        6 => say_damage(rt, name_of(host)),
        8 => say_port(rt, host.trouble()),
        _ => eprintln!(rt;
            "tsdb: there is not enough memory: what was acknowledged is kept; run it again with more"
        ),
    };
}

/// The name of the folder, or an empty one.
fn name_of(host: &StdHost<HostRuntime>) -> &str {
    match std::str::from_utf8(host.folder().unwrap_or_default()) {
        Ok(name) => name,
        Err(_) => "",
    }
}

/// Says that the folder is damaged.
fn say_damage(rt: &HostRuntime, folder: &str) -> IoResult<()> {
    eprintln!(rt;
        "tsdb: folder {folder:?} is damaged at the file and the byte that standard output names, the file by its number, of which its name is the 16 hexadecimal digits: bring that file back from a copy"
    )
}

/// Says why standard input couldn't be read.
fn say_input(rt: &HostRuntime, error: Option<&Error>) -> IoResult<()> {
    let what_to_do =
        "the requests before were carried out; see what it is connected to, and send the rest";
    match error {
        Some(error) => eprintln!(rt; "tsdb: standard input can't be read: {error}: {what_to_do}"),
        None => eprintln!(rt; "tsdb: standard input can't be read: {what_to_do}"),
    }
}

/// Says why standard output couldn't be written.
fn say_output(rt: &HostRuntime, error: Option<&Error>) -> IoResult<()> {
    let what_to_do =
        "the last replies are lost, though their requests may be carried out; see what it is connected to, and ask again";
    match error {
        Some(error) => eprintln!(rt;
            "tsdb: standard output can't be written: {error}: {what_to_do}"
        ),
        None => eprintln!(rt; "tsdb: standard output can't be written: {what_to_do}"),
    }
}

/// Says what went wrong with the folder.
fn say_folder(rt: &HostRuntime, folder: &str, trouble: Option<&Trouble>) -> IoResult<()> {
    match trouble {
        Some(Trouble::Refused(refusal)) => say_refusal(rt, folder, refusal),
        Some(Trouble::Failed(failure)) => {
            eprintln!(rt;
                "tsdb: in folder {folder:?} {failure}: see that its disk is whole and has room, and run it again"
            )
        }
        Some(Trouble::Port(..)) | None => eprintln!(rt;
            "tsdb: folder {folder:?} can't be used: see that its disk is whole, and run it again"
        ),
    }
}

/// Says what went wrong with the port.
fn say_port(rt: &HostRuntime, trouble: Option<&Trouble>) -> IoResult<()> {
    match trouble {
        Some(Trouble::Port(port, error)) => eprintln!(rt;
            "tsdb: port {port} can't be listened on: {error}: end the process that has it, or name another one"
        ),
        _ => eprintln!(rt;
            "tsdb: the port gives no more connections: what was acknowledged is kept; run it again"
        ),
    }
}

/// Says why the folder wasn't opened.
fn say_refusal(rt: &HostRuntime, folder: &str, refusal: &Refusal) -> IoResult<()> {
    match refusal {
        Refusal::Name => eprintln!(rt; "tsdb: the folder's name is no UTF-8: name another one"),
        Refusal::InUse => {
            eprintln!(rt;
                "tsdb: folder {folder:?} is in use by another process: end that one, or name another folder"
            )
        }
        Refusal::Unmarked => {
            eprintln!(rt;
                "tsdb: folder {folder:?} has a log, but its file 0000000000000000 is missing or has lost its byte 1: bring that file back from a copy, or name another folder"
            )
        }
        Refusal::System(error) => {
            eprintln!(rt;
                "tsdb: folder {folder:?} can't be opened: {error}: see that it is a folder that this user may read and write, or name another one"
            )
        }
    }
}
