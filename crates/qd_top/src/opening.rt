//! The store of the host's volume is opened, or it is said why there is none.
ghost use Rattle.std.specs.Prelude.{◌≡◌, ◌≢◌, Err, Option, option_map, IfErr, IfOk};
ghost use Rattle.qd_host.specs.Hosts.{ConnectionsStay, after_volume};
ghost use Rattle.qd_store.specs.declared.fault.OpenFault.TheVariants as fault;
ghost use Rattle.qd_store_backend.specs.Volumes.{MayFind};
ghost use Rattle.qd_top.specs.Run.{CountsWrites};
ghost use Rattle.qd_top.specs.Stores.{HasNoStore, IsServable, Names, SaysDamage, SaysFault, with_volume};

use crate::status::Status;
use qd_base::Reply;
use qd_ghost::Telling;
use qd_host::{Host, faults_come_back};
use qd_io::{IoFault, Sink, write_all};
use qd_print::print_reply;
use qd_store::{OpenFault, Store, Unmade};
use qd_store_backend::open_or_create;
use std::alloc::Global;

/// Opens the store of the volume that the host gives for a folder, or where none is named, and makes it where there is none. After an
/// `Err` the host has its volume back.
pub(crate) fn open_host<H: Host>(
    alloc: Global,
    told: &Telling,
    dir: Option<&[u8]>,
    host: &mut H,
) -> Result<Store<H::Vol>, OpenFault>
    requires found { MayFind told.now.history (H.supply host.old).shelf }
    ensures opened { IfOk result (λ store. IsServable told.now.history (H.supply host.old) (H.supply host.new) store) }
    ensures unopened { IfErr result (λ why. HasNoStore why (H.supply host.old) (H.supply host.new)) }
    ensures named { Names (H.supply host.old).folders (H.supply host.new).folders (option_map (λ d. d.now) dir.entry) (result ≡ Err fault.Memory) }
    ensures connections { ConnectionsStay (H.supply host.old) (H.supply host.new) }
{
    match host.volume(alloc, dir) {
        Ok(volume) => open_volume(alloc, told, volume, host),
        Err(IoFault::Failed) => Err(OpenFault::Vol),
        Err(IoFault::Memory) => Err(OpenFault::Memory),
    }
}

/// Opens or makes the store of a volume that the host has lent.
fn open_volume<H: Host>(
    alloc: Global,
    told: &Telling,
    volume: H::Vol,
    host: &mut H,
) -> Result<Store<H::Vol>, OpenFault>
    requires found { MayFind told.now.history (H.Vol.storage volume).disk }
    requires lent { (H.supply host.old).lent_faults ≡ (H.Vol.storage volume).faults }
    ensures opened { IfOk result (λ store. IsServable told.now.history (with_volume (H.Vol.storage volume) (H.supply host.old)) (H.supply host.new) store) }
    ensures unopened { IfErr result (λ why. HasNoStore why (with_volume (H.Vol.storage volume) (H.supply host.old)) (H.supply host.new)) }
    ensures folders { (H.supply host.new).folders ≡ (H.supply host.old).folders }
    ensures connections { ConnectionsStay (H.supply host.old) (H.supply host.new) }
{
    match open_or_create(alloc, volume) {
        Ok(store) => {
            store.keeps_its_law();
            Ok(store)
        }
        Err(unmade) => {
            faults_come_back();
            Err(give_back(unmade, host))
        }
    }
}

/// Gives a volume of which no store could be had back to its host, and says why.
fn give_back<H: Host>(unmade: Unmade<H::Vol>, host: &mut H) -> OpenFault
    ensures back { H.supply host.new ≡ after_volume unmade.storage (H.supply host.old) }
    ensures why { result ≡ unmade.why }
{
    let Unmade { volume, why } = unmade;
    host.put_back(volume);
    why
}

/// Says why no store was opened: the place of a damage is written, and nothing else.
pub(crate) fn refuse_store<K: Sink>(alloc: Global, why: OpenFault, output: &mut K) -> Status
    requires made { why ≢ fault.NotMade }
    ensures said { SaysFault why (K.stream output.old).output (K.stream output.new).output result }
    ensures writes { CountsWrites (K.stream output.old).writes_failed (K.stream output.new).writes_failed result }
{
    match why {
        OpenFault::Vol => Status::NoVolume,
        OpenFault::Memory => Status::NoMemory,
        OpenFault::Damaged { file, at } => say_damage(alloc, file, at, output),
        OpenFault::NotMade => unreachable!(),
    }
}

/// Writes the place of a damage.
fn say_damage<K: Sink>(alloc: Global, file: u64, at: u64, output: &mut K) -> Status
    ensures said { SaysDamage file at (K.stream output.old).output (K.stream output.new).output result }
    ensures writes { CountsWrites (K.stream output.old).writes_failed (K.stream output.new).writes_failed result }
{
    let Ok(line) = print_reply(alloc, &Reply::Damaged { file, at }) else {
        return Status::NoMemory;
    };
    match write_all(output, line.bytes()) {
        Ok(()) => Status::Damaged,
        Err(IoFault::Failed) => Status::WriteFault,
        Err(IoFault::Memory) => Status::NoMemory,
    }
}
