//! The program, over whatever it is given of the outside.
ghost use Rattle.std.specs.Prelude.{◌≡◌, ◌⊎◌, ◌≤◌, ℕ, List, [], None, Option, Some, length, option_map};
ghost use Rattle.qd_store_backend.specs.Volumes.{MayFind};
ghost use Rattle.qd_base.specs.declared.limits.TheConstants.{LAST_OFFSET};
ghost use Rattle.qd_gen.specs.Generated.{input as generated};
ghost use Rattle.qd_io.specs.Ends.{HasRisen};
ghost use Rattle.qd_print.specs.Printed.{reply_bytes};
ghost use Rattle.qd_gen.specs.Quieted.{without_done};
ghost use Rattle.qd_args.specs.declared.command.Command.{Command};
ghost use Rattle.qd_args.specs.declared.command.TheConstants.{MAX_GEN_LINES};
ghost use Rattle.qd_args.specs.Words.{IsCommand};
ghost use Rattle.qd_top.specs.Run.{Answered, AsksToRun, CountsReads, CountsWrites, EndsWith, IsUnserved, Ran, WroteUsage, kind_of, limit_of, outside, traffic};
ghost use Rattle.qd_top.specs.Stores.{IsOfNoStore, Names};
ghost use Rattle.qd_top.specs.Status.{number_of};

use crate::ports::serve_port;
use crate::serving::serve_ends;
use crate::status::Status;
use qd_args::{Command, Spoken, read_words};
use qd_base::Txt;
use qd_frames::FrameFront;
use qd_fronts::FrontKind;
use qd_gen::{Quiet, TextSource, gen_input, input_is_read_as_asked};
use qd_ghost::Telling;
use qd_host::Host;
use qd_io::{IoFault, Sink, Source, write_all};
use std::alloc::Global;
use std::sync::Wait;
use std::thread;
use std::time::Clock;

/// Runs the program: reads its words, does what they ask for, and gives its status.
///
/// `run` serves the frames of the input over a store: batches of lines, statements and applies, until the input ends or a request
/// asks for the end. `run --dir D` opens the store of the folder D, and makes it where there is none; without a folder the store is
/// on a volume in memory. Lines without a stamp take the time of the host's clock. What is acknowledged by `K` is in the volume, and
/// stays there after any stop. `gen NUMBER LINES` serves an input that it makes for itself, over a volume in memory, and prints every
/// reply but those that acknowledge a write; it holds that input in memory, 40 bytes or so for each line, beside what the volume
/// takes. `serve PORT --dir D` opens the store of the folder D, and serves the connections that come to the port over it, each in a
/// thread of its own, without end, or as many as `--connections` says. All other words are answered with one usage line.
///
/// `told` has the history on the host's volume, where one is told: all that is said of transactions is said of it and of those behind
/// it. A volume that isn't made has none, and one that is whole has that of its files.
///
/// | Status | Comes |
/// |---|---|
/// | 0 | where the input was read to its end or to `X`; for `serve`, where each connection that was taken was served or turned away |
/// | 1 | for all other words, and only for them; no input is read |
/// | 2 | only for `run`, where bytes are no frame, or the input ends inside one; status 0 never comes there |
/// | 3 | only for `run`, where a read failed, or the count of failed reads stands at the greatest `u64` |
/// | 4 | only where a write to the output failed, or the count of failed writes stands at the greatest `u64` |
/// | 5 | only where the host gave no volume, or the volume failed while its store was opened or made; no input is read |
/// | 6 | only where the files of the store are damaged, at the place that is written; no input is read |
/// | 7 | where no memory was found outside a request; it may come before any other |
/// | 8 | only for `serve`, where the host gave no listener, or the listener failed, or the count of these stands at the greatest `u64` |
///
/// Behind 0, 2, 3, 4 and 8 the volume is back at the host, and is whole with the transactions that were acknowledged, for `run` and
/// `gen` with just these; so it is behind 7, once the store was opened. One transaction whose write failed may stand behind them; for
/// `run` and `gen` a reply said so. Behind 5 and 6, and behind 4 where it was the place of a damage that couldn't be written, each file
/// of the volume reads as it did, or there was no store, and there is none or one without a transaction.
///
/// `serve` reads no input, and writes to the output nothing but the place of a damage. It takes connections from the first one on, and
/// gives each back to the host once, with the replies to the requests that were read of it, or refused, where no thread could be
/// started; only at 7 one may come back as it came. No number of a transaction is acknowledged twice.
pub fn top<
    R: thread::Threads + Wait + Clock + Copy + Send + Drop + 'static,
    S: Source,
    K: Sink,
    H: Host,
>(
    rt: &R,
    alloc: Global,
    told: &Telling,
    words: &[Txt],
    input: &mut S,
    output: &mut K,
    host: &mut H,
) -> u8
    requires found { MayFind told.now.history (H.supply host.old).shelf }
    ensures answered { Answered words.now told.now.history (outside (S.stream input.old) (K.stream output.old) (H.supply host.old))
        (outside (S.stream input.new) (K.stream output.new) (H.supply host.new)) result }
    ensures unread { (AsksToRun words.now → ⊥) ⊎ IsUnserved result → input.new ≡ input.old }
    ensures unused { (IsCommand words.now → ⊥) → host.new ≡ host.old }
{
    do_as_asked(rt, alloc, told, words, input, output, host).number()
}

/// Does what the words ask for.
fn do_as_asked<
    R: thread::Threads + Wait + Clock + Copy + Send + Drop + 'static,
    S: Source,
    K: Sink,
    H: Host,
>(
    rt: &R,
    alloc: Global,
    told: &Telling,
    words: &[Txt],
    input: &mut S,
    output: &mut K,
    host: &mut H,
) -> Status
    requires found { MayFind told.now.history (H.supply host.old).shelf }
    ensures answered { Answered words.now told.now.history (outside (S.stream input.old) (K.stream output.old) (H.supply host.old))
        (outside (S.stream input.new) (K.stream output.new) (H.supply host.new)) (number_of result) }
    ensures unread { (AsksToRun words.now → ⊥) ⊎ IsUnserved (number_of result) → input.new ≡ input.old }
    ensures unused { (IsCommand words.now → ⊥) → host.new ≡ host.old }
{
    match read_words(alloc, words) {
        Ok(Some(Command::Run { dir })) => run(alloc, told, dir.as_ref(), input, output, host),
        Ok(Some(Command::Gen { number, lines })) => generate(
            alloc, told, number, lines, output, host,
        ),
        Ok(
            Some(
                Command::Serve {
                    port,
                    dir,
                    connections,
                    front,
                },
            ),
        ) => serve_port(
            rt,
            alloc,
            told,
            front_of(front),
            port,
            dir.bytes(),
            most_of(connections),
            output,
            host,
        ),
        Ok(None) => refuse_words(output),
        Err(_) => Status::NoMemory,
    }
}

/// What words that the program doesn't know are answered with.
const USAGE: &[u8] =
    b"usage: tsdb run [--dir D] | gen NUMBER LINES | serve PORT --dir D [--connections N] [--front F]\n";

/// Writes the usage line.
fn refuse_words<K: Sink>(output: &mut K) -> Status
    ensures usage { result ≡ Status.Usage → (missing : List ℕ) × WroteUsage (K.stream output.old).output (K.stream output.new).output missing
        × ((missing ≡ []) ⊎ HasRisen (K.stream output.old).writes_failed (K.stream output.new).writes_failed) }
    ensures front { (missing : List ℕ) × WroteUsage (K.stream output.old).output (K.stream output.new).output missing }
    ensures statuses { (result ≡ Status.Usage) ⊎ (result ≡ Status.NoMemory) }
    ensures writes { CountsWrites (K.stream output.old).writes_failed (K.stream output.new).writes_failed result }
{
    match write_all(output, USAGE) {
        Ok(()) => Status::Usage,
        Err(IoFault::Failed) => Status::Usage,
        Err(IoFault::Memory) => Status::NoMemory,
    }
}

/// Serves the frames of the input over the store of a folder, or of a volume in memory.
fn run<S: Source, K: Sink, H: Host>(
    alloc: Global,
    told: &Telling,
    dir: Option<&Txt>,
    input: &mut S,
    output: &mut K,
    host: &mut H,
) -> Status
    requires found { MayFind told.now.history (H.supply host.old).shelf }
    ensures ran { Ran reply_bytes told.now.history (H.supply host.old) (H.supply host.new)
        (traffic (S.stream input.old) (S.stream input.new) (K.stream output.old) (K.stream output.new)) result }
    ensures unread { IsOfNoStore result → input.new ≡ input.old }
    ensures named { Names (H.supply host.old).folders (H.supply host.new).folders (option_map (λ d. d.now) dir.entry) (result ≡ Status.NoMemory) }
    ensures reads { CountsReads (S.stream input.old).reads_failed (S.stream input.new).reads_failed result }
    ensures writes { CountsWrites (K.stream output.old).writes_failed (K.stream output.new).writes_failed result }
{
    let mut front = FrameFront::new(alloc);
    serve_ends(alloc, told, name_of(dir), &mut front, input, output, host)
}

/// The bytes of a folder's name, where one is named.
fn name_of(dir: Option<&Txt>) -> Option<&[u8]>
    ensures { option_map (λ d. d.now) result ≡ option_map (λ d. d.now) dir.entry }
{
    match dir {
        Some(dir) => Some(dir.bytes()),
        None => None,
    }
}

/// The protocol that a word names.
fn front_of(spoken: Spoken) -> FrontKind
    ensures { result ≡ kind_of spoken }
{
    match spoken {
        Spoken::Frames => FrontKind::Frames,
        Spoken::Http => FrontKind::Http,
        Spoken::Pg => FrontKind::Pg,
    }
}

/// How many connections are served at most, where 0 is no end.
fn most_of(connections: Option<u32>) -> u64
    ensures { result ≡ limit_of connections }
{
    match connections {
        Some(most) => u64::from(most),
        None => 0,
    }
}

/// Makes the generated input and serves it over a volume in memory.
fn generate<K: Sink, H: Host>(
    alloc: Global,
    told: &Telling,
    number: u32,
    lines: u32,
    output: &mut K,
    host: &mut H,
) -> Status
    requires found { MayFind told.now.history (H.supply host.old).shelf }
    requires few { lines ≤ MAX_GEN_LINES }
    ensures ran { (left : Option (List ℕ)) × Ran (without_done reply_bytes) told.now.history (H.supply host.old) (H.supply host.new)
        (record { input = Some (generated number lines); left = left; output = (K.stream output.old).output; written = (K.stream output.new).output }) result }
    ensures named { Names (H.supply host.old).folders (H.supply host.new).folders None (result ≡ Status.NoMemory) }
    ensures ends { EndsWith (Command.Gen number lines) (number_of result) }
    ensures writes { CountsWrites (K.stream output.old).writes_failed (K.stream output.new).writes_failed result }
{
    let Ok(text) = gen_input(alloc, number, lines) else {
        return Status::NoMemory;
    };
    input_is_read_as_asked();
    FrameFront::one_reading();
    length_of(&text);
    let mut source = TextSource::new(text);
    serve_quietly(alloc, told, &mut source, output, host)
}

/// The number of bytes of a text, which is one that offsets reach.
fn length_of(text: &Txt) -> usize
    ensures length { result ≡ length text.now }
    ensures reached { length text.now ≤ LAST_OFFSET }
{
    text.bytes().len()
}

/// Serves the frames of a source over a volume in memory, and prints every reply but those that acknowledge a write.
fn serve_quietly<S: Source, K: Sink, H: Host>(
    alloc: Global,
    told: &Telling,
    input: &mut S,
    output: &mut K,
    host: &mut H,
) -> Status
    requires found { MayFind told.now.history (H.supply host.old).shelf }
    ensures ran { Ran (without_done reply_bytes) told.now.history (H.supply host.old) (H.supply host.new)
        (traffic (S.stream input.old) (S.stream input.new) (K.stream output.old) (K.stream output.new)) result }
    ensures named { Names (H.supply host.old).folders (H.supply host.new).folders None (result ≡ Status.NoMemory) }
    ensures reads { CountsReads (S.stream input.old).reads_failed (S.stream input.new).reads_failed result }
    ensures writes { CountsWrites (K.stream output.old).writes_failed (K.stream output.new).writes_failed result }
{
    let mut quiet = Quiet::new(FrameFront::new(alloc));
    serve_ends(alloc, told, None, &mut quiet, input, output, host)
}
