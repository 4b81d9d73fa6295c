//! The program from its arguments: the words behind its name, and what it does with them.
ghost use Rattle.std.specs.Prelude.{◌≡◌, ◌⊎◌, drop, map, IfOk};
ghost use Rattle.qd_store_backend.specs.Volumes.{MayFind};
ghost use Rattle.std.specs.String.{string_bytes};
ghost use Rattle.std.specs.Vec.Iter.{into_iter_items};
ghost use Rattle.qd_top.specs.Run.{Answered, IsUnserved, outside, words_behind};

use crate::program::top;
use crate::status::Status;
use qd_base::{Memory, Txt};
use qd_ghost::Telling;
use qd_host::Host;
use qd_io::{Sink, Source};
use std::alloc::Global;
use std::env::Args;
use std::sync::Wait;
use std::time::Clock;
use std::{io, thread};

/// Runs the program on its arguments, the first of which is its own name, and gives the number that the process ends
/// with.
///
/// The words behind the name go to `top`, byte for byte. Where the machine gives no arguments, since one of them isn't
/// UTF-8, there is no word; where it finds no memory for them the status is 7, and nothing is read or written.
pub fn run_program<
    R: thread::Threads + Wait + Clock + Copy + Send + Drop + 'static,
    S: Source,
    K: Sink,
    H: Host,
>(
    rt: &R,
    alloc: Global,
    told: &Telling,
    args: io::Result<Args>,
    input: &mut S,
    output: &mut K,
    host: &mut H,
) -> u8
    requires found { MayFind told.now.history (H.supply host.old).shelf }

    // No memory was found for the words, and nothing was done; or this is what `top` says of them.
    ensures answered { ((result ≡ 7) × (input.new ≡ input.old) × (output.new ≡ output.old) × (host.new ≡ host.old))
        ⊎ Answered (words_behind (λ a. map (λ s. string_bytes s) (into_iter_items a)) args) told.now.history (outside (S.stream input.old) (K.stream output.old) (H.supply host.old))
        (outside (S.stream input.new) (K.stream output.new) (H.supply host.new)) result }
    ensures unread { IsUnserved result → input.new ≡ input.old }
{
    match args {
        Ok(args) => match words_of(alloc, args) {
            Ok(words) => top(rt, alloc, told, words.as_slice(), input, output, host),
            Err(_) => Status::NoMemory.number(),
        },
        Err(fault) if fault.kind() == io::ErrorKind::OutOfMemory => Status::NoMemory.number(),
        Err(_) => top(rt, alloc, told, &[], input, output, host),
    }
}

/// Copies the words behind the program's name.
fn words_of(alloc: Global, args: Args) -> Result<Vec<Txt>, Memory>
    ensures words { IfOk result (λ words. words.items ≡ drop 1 (map (λ s. string_bytes s) (into_iter_items args))) }
{
    let mut args = args;
    let mut words = Vec::new(alloc);
    let _name = args.next();
    while let Some(arg) = args.next() {
        words.push(Txt::from_bytes(alloc, arg.as_bytes())?)?;
    }
    Ok(words)
}
