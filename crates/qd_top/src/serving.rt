//! An input is served over the store of the host's volume.
ghost use Rattle.std.specs.Prelude.{◌≡◌, ℕ, List, None, Option, option_map};
ghost use Rattle.qd_store_backend.specs.Backs.{AreUsual, BeginsWith};
ghost use Rattle.qd_store_backend.specs.Rounds.{IsOnlyOne};
ghost use Rattle.qd_store_backend.specs.Volumes.{MayFind};
ghost use Rattle.qd_base.specs.declared.request.Reply.{Reply};
ghost use Rattle.qd_top.specs.Frames.{SpellsFrames};
ghost use Rattle.qd_top.specs.Run.{CountsReads, CountsWrites, Ran, fresh, traffic};
ghost use Rattle.qd_top.specs.Stores.{IsOfNoStore, Names, RanFrom, begun_of, store_of};

use crate::opening::{open_host, refuse_store};
use crate::status::Status;
use qd_base::Front;
use qd_ghost::Telling;
use qd_host::Host;
use qd_io::{Both, Sink, Source};
use qd_session::serve;
use qd_store::{Store, stores_are_whole};
use qd_store_backend::StoreBack;
use std::alloc::Global;

/// Serves an input by a front of frames, over the store of the volume that the host gives for a folder, or where none is named. Where
/// there is no such store, nothing is read.
pub(crate) fn serve_ends<F: Front, S: Source, K: Sink, H: Host>(
    alloc: Global,
    told: &Telling,
    dir: Option<&[u8]>,
    front: &mut F,
    input: &mut S,
    output: &mut K,
    host: &mut H,
) -> Status
    requires found { MayFind told.now.history (H.supply host.old).shelf }
    ensures ran { (print : Reply → List ℕ) → SpellsFrames print (F.protocol front.old)
        → Ran print told.now.history (H.supply host.old) (H.supply host.new) (traffic (S.stream input.old) (S.stream input.new) (K.stream output.old) (K.stream output.new)) result }
    ensures unread { IsOfNoStore result → input.new ≡ input.old }
    ensures named { Names (H.supply host.old).folders (H.supply host.new).folders (option_map (λ d. d.now) dir.entry) (result ≡ Status.NoMemory) }
    ensures reads { CountsReads (S.stream input.old).reads_failed (S.stream input.new).reads_failed result }
    ensures writes { CountsWrites (K.stream output.old).writes_failed (K.stream output.new).writes_failed result }
{
    match open_host(alloc, told, dir, host) {
        Ok(store) => {
            let mut wire = Both {
                source: input,
                sink: output,
            };
            serve_store(alloc, told, store, front, &mut wire, host)
        }
        Err(why) => refuse_store(alloc, why, output),
    }
}

/// Serves a wire over a store whose volume the host has lent, and gives the volume back.
fn serve_store<F: Front, W: Source + Sink, H: Host>(
    alloc: Global,
    told: &Telling,
    store: Store<H::Vol>,
    front: &mut F,
    wire: &mut W,
    host: &mut H,
) -> Status
    requires usual { AreUsual store.store.limits }
    requires alone { IsOnlyOne store.store.versions.versions }
    requires told { BeginsWith told.now.history store }
    requires settled { store.store.sequence.pending ≡ None }
    requires lent { (H.supply host.old).lent_faults ≡ store.storage.faults }
    ensures ran { (print : Reply → List ℕ) → SpellsFrames print (F.protocol front.old)
        → RanFrom print (begun_of store told.now.history (fresh (H.supply host.old))) (H.supply host.old) (H.supply host.new) (traffic (W.Source.stream wire.old) (W.Source.stream wire.new) (W.Source.stream wire.old) (W.Source.stream wire.new)) result }
    ensures served { IsOfNoStore result → ⊥ }
    ensures folders { (H.supply host.new).folders ≡ (H.supply host.old).folders }
    ensures reads { CountsReads (W.Source.stream wire.old).reads_failed (W.Source.stream wire.new).reads_failed result }
    ensures writes { CountsWrites (W.Source.stream wire.old).writes_failed (W.Source.stream wire.new).writes_failed result }
    ensures input_lent { (W.Source.stream wire.new).input_lent ≡ (W.Source.stream wire.old).input_lent }
    ensures output_lent { (W.Source.stream wire.new).output_lent ≡ (W.Source.stream wire.old).output_lent }
{
    match StoreBack::over(alloc, store, told) {
        Ok(back) => serve_back(alloc, back, front, wire, host),
        Err(store) => {
            stores_are_whole();
            store.keeps_its_law();
            host.put_back(store.into_volume());
            Status::NoMemory
        }
    }
}

/// Serves a wire over a backend whose volume the host has lent, with a clock of the host, and gives the clock and the volume back.
fn serve_back<F: Front, W: Source + Sink, H: Host>(
    alloc: Global,
    back: StoreBack<H::Vol>,
    front: &mut F,
    wire: &mut W,
    host: &mut H,
) -> Status
    requires lent { (H.supply host.old).lent_faults ≡ back.parts.owned.storage.faults }
    ensures ran { (print : Reply → List ℕ) → SpellsFrames print (F.protocol front.old)
        → RanFrom print (store_of back (fresh (H.supply host.old))) (H.supply host.old) (H.supply host.new) (traffic (W.Source.stream wire.old) (W.Source.stream wire.new) (W.Source.stream wire.old) (W.Source.stream wire.new)) result }
    ensures served { IsOfNoStore result → ⊥ }
    ensures folders { (H.supply host.new).folders ≡ (H.supply host.old).folders }
    ensures reads { CountsReads (W.Source.stream wire.old).reads_failed (W.Source.stream wire.new).reads_failed result }
    ensures writes { CountsWrites (W.Source.stream wire.old).writes_failed (W.Source.stream wire.new).writes_failed result }
    ensures input_lent { (W.Source.stream wire.new).input_lent ≡ (W.Source.stream wire.old).input_lent }
    ensures output_lent { (W.Source.stream wire.new).output_lent ≡ (W.Source.stream wire.old).output_lent }
{
    let mut back = back;
    let mut clock = host.clock();
    let ended = serve(alloc, front, &mut back, wire, &mut clock);
    front.one_script();
    host.clock_back(clock);
    host.put_back(back.into_volume());
    Status::of(ended)
}
