//! The writers that are kept.
ghost use Rattle.std.specs.Prelude.{◌≡◌, ◌<◌, ◌∷◌, ◌++◌, ◌==◌, [], position, vec_capacity, vec_len};
ghost use Rattle.qd_wal.specs.declared.writer.WalWriter.{WalWriter};
ghost use Rattle.qd_sequencer.specs.Sequences.{with_writer, without_writer, writer_of};

use qd_wal::WalWriter;

/// Gives the writer of a number, or a new one where none is asked for or it isn't kept. So many transactions are before it.
pub(crate) fn writer_for(writers: &[WalWriter], n: u32, writer: Option<u32>) -> WalWriter
    ensures chosen { result ≡ writer_of writers.now n writer }
{
    let fresh = WalWriter {
        wal: n,
        segment: 0,
        end: 0,
    };
    match writer {
        Some(wal) => match place_of(writers, wal) {
            Some(i) => writers[i],
            None => fresh,
        },
        None => fresh,
    }
}

/// The place of the writer of a number, where it is kept.
fn place_of(writers: &[WalWriter], wal: u32) -> Option<usize>
    ensures place { result ≡ position (λ (w : WalWriter). w.wal == wal) writers.now }
{
    writers.iter().position(|kept| kept.wal == wal)
}

/// Keeps a writer: in place of the one of its log, or behind all others.
pub(crate) fn keep(writers: &mut Vec<WalWriter>, writer: WalWriter)
    requires room { vec_len writers.old < vec_capacity writers.old }
    ensures kept { writers.new.items ≡ with_writer writers.old.items writer }
{
    match place_of(writers.as_slice(), writer.wal) {
        Some(i) => writers[i] = writer,
        None => push(writers, writer),
    }
}

/// Adds a writer to a list that has room for it.
fn push(writers: &mut Vec<WalWriter>, writer: WalWriter)
    requires room { vec_len writers.old < vec_capacity writers.old }
    ensures pushed { writers.new.items ≡ writers.old.items ++ writer ∷ [] }
{
    match writers.push(writer) {
        Ok(()) => {}
        Err(_) => unreachable!(),
    }
}

/// Forgets the writer of a number, where it is kept.
pub(crate) fn forget(writers: &mut Vec<WalWriter>, wal: u32)
    ensures forgotten { writers.new.items ≡ without_writer writers.old.items wal }
{
    match place_of(writers.as_slice(), wal) {
        Some(i) => {
            writers.remove(i);
        }
        None => {}
    }
}
