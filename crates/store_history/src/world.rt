//! What a history has made so far: a device, a store or sessions over it, and what was committed.
ghost use Rattle.qd_store.specs.Stores.{AreLimits};

use crate::answer::{push_fault, push_open};
use crate::device::{Bent, Device, Switch};
use crate::numbers::Numbers;
use crate::record::Record;
use crate::step::{Most, Step, StoreStep};
use crate::taking::{NOW, retire_others, take_with};
use crate::text::{push_digits, push_shown};
use crate::trouble::{Trouble, hold};
use qd_base::{Limits, MAX_TXNS, Txt, WalRef};
use qd_ghost::Telling;
use qd_io::{Both, IoFault, MemClock, MemSink, MemSource};
use qd_session::{Ended, FrameFront, serve};
use qd_store::{LogFault, OpenFault, Store, Unmade};
use qd_store_backend::{StoreBack, open_or_create};
use qd_volume::Volume;
use qd_wal::segment_file;
use std::alloc::Global;
use std::mem;
use std::rc::Rc;

/// How many bytes of a file are shown at most.
const LONGEST: u64 = 65_536;

/// The longest entry that is compared.
const LARGEST: u64 = 1_048_576;

/// Segments have numbers below this one.
const SEGMENTS: u32 = 1 << 24;

/// The most blocks that are looked at, and how many columns of each.
const BLOCKS: u64 = 1_000;

const COLUMNS: u64 = 8;

/// What is open.
#[derive(Drop)]
enum Held {
    /// Nothing yet.
    Nothing,
    /// A device.
    Device(Box<Device>),
    /// A store over it.
    Store(Box<Store<Device>>),
    /// Sessions over a store.
    Back(Box<StoreBack<Device>>),
}

/// What opening a device gave.
#[derive(Clone, Copy, Debug, PartialEq, Eq)]
pub enum Opened {
    /// A store of so many transactions, of which so many are shown; and whether one more was found than was acknowledged.
    Store { found: u64, shown: u64, more: bool },
    /// No store.
    NotMade,
    /// The device failed.
    Failed,
    /// Damage.
    Damaged,
}

/// What a history has made so far.
#[derive(Drop)]
pub struct World {
    alloc: Global,
    /// The switch of its device.
    pub switch: Rc<Switch>,
    held: Held,
    most: Most,
    record: Record,
    /// Whether a store was made.
    made: bool,
    /// How many transactions the version shows that was published last.
    shown: u64,
    /// Whether what is on the device is what the record says: no byte of it was changed, and no session wrote to it.
    is_told: bool,
    /// How many calls the device had had when they were asked for last.
    asked: u64,
}

/// The limits of a store.
fn limits_of(most: Most) -> Limits
    ensures limits { AreLimits result }
{
    let mut limits = Limits::usual();
    limits.max_txns = most.transactions.min(u64::from(MAX_TXNS)) as u32;
    limits.seg_bytes = most.segment.min(1 << 62);
    limits.split_rows = most.split;
    limits
}

/// The bytes of a transaction at its place.
fn bytes_at(alloc: Global, device: &mut Device, at: WalRef) -> Result<Txt, LogFault> {
    let mut bytes = Vec::from_elem(alloc, 0u8, at.len.min(LARGEST) as usize)?;
    if at.segment >= SEGMENTS {
        return Err(LogFault::Memory);
    }
    let file = segment_file(at.wal, at.segment);
    let n = device.read(file, at.start, bytes.as_mut_slice())?;
    bytes.truncate(n);
    Ok(Txt::from_vec(bytes))
}

/// How many bytes the files of a block's first columns have.
fn block_bytes(device: &mut Device, block: u64) -> Result<u64, IoFault> {
    let first = (1 << 62) + block.min(BLOCKS) * 1024;
    let mut sum = 0u64;
    for i in 0..2 * COLUMNS {
        sum = sum.saturating_add(device.len(first + i)?);
    }
    Ok(sum)
}

/// Which of the first blocks have bytes.
fn blocks_of(alloc: Global, device: &mut Device, count: u64) -> Result<Numbers, IoFault> {
    let mut blocks = Numbers::new(alloc);
    for block in 0..count.min(BLOCKS) {
        if block_bytes(device, block)? > 0 {
            blocks.add(block)?;
        }
    }
    Ok(blocks)
}

/// The bytes of transactions at their places.
fn found_at(alloc: Global, device: &mut Device, places: &[WalRef]) -> Result<Vec<Txt>, LogFault> {
    let mut found = Vec::new(alloc);
    for at in places {
        found.push(bytes_at(alloc, device, *at)?)?;
    }
    Ok(found)
}

/// The bytes of a file.
fn file_bytes(alloc: Global, device: &mut Device, file: u64) -> Result<Vec<u8>, IoFault> {
    let size = device.len(file)?.min(LONGEST) as usize;
    let mut bytes = Vec::from_elem(alloc, 0u8, size)?;
    let n = device.read(file, 0, bytes.as_mut_slice())?;
    bytes.truncate(n);
    Ok(bytes)
}

impl World {
    /// Nothing was done.
    pub fn new(alloc: Global) -> Result<World, Trouble> {
        Ok(World {
            alloc,
            switch: Rc::new(alloc, Switch::new())?,
            held: Held::Nothing,
            most: Most {
                transactions: u64::from(MAX_TXNS),
                segment: 1 << 26,
                split: 4_096,
            },
            record: Record::new(alloc)?,
            made: false,
            shown: 0,
            is_told: true,
            asked: 0,
        })
    }

    /// What some steps make. What they answer isn't shown.
    pub fn after(alloc: Global, steps: &[Step]) -> Result<World, Trouble> {
        let mut world = World::new(alloc)?;
        let mut out = String::new(alloc);
        for step in steps {
            let _failed = world.take(step, &mut out)?;
        }
        Ok(world)
    }

    /// Whether a step can be taken: those with a store, while one is open; those of sessions, while they are.
    pub fn can_take(&self, step: &Step) -> bool {
        match (step, &self.held) {
            (Step::Store(_), Held::Store(_)) | (Step::Ask(_), Held::Back(_)) => true,
            (Step::Store(_) | Step::Ask(_), _) => false,
            _ => true,
        }
    }

    /// Takes a step, and adds what it answers. Says whether the device failed; its count of faults has risen then, and not where it
    /// didn't fail.
    pub fn take(&mut self, step: &Step, out: &mut String) -> Result<bool, Trouble> {
        let before = self.switch.failed();
        let failed = self.answer(step, out)?;
        let rose = before < self.switch.failed();
        hold(!failed || rose, "a fault that the device didn't count")?;
        hold(
            failed || !rose || self.may_hide(),
            "a fault that isn't answered",
        )?;
        Ok(failed)
    }

    /// Whether a fault may stay without an answer: a session's apply goes on where a block can't be swept.
    fn may_hide(&self) -> bool {
        matches!(&self.held, Held::Back(_))
    }

    /// Takes a step, and adds what it answers. Says whether the device failed.
    fn answer(&mut self, step: &Step, out: &mut String) -> Result<bool, Trouble> {
        match step {
            Step::Store(step) => self.with_store(step, out),
            Step::New(most) => self.make(*most, out),
            Step::Open => self.open(out),
            Step::Crash(pick) => {
                let opened = self.crash(*pick, out)?;
                Ok(opened == Opened::Failed)
            }
            Step::Session => self.begin(out),
            Step::Ask(frames) => self.ask(frames, out),
            Step::Set(bent) => self.change(bent),
            Step::Cut { file, len } => self.cut(*file, *len),
            Step::Bytes(file) => self.show_bytes(*file, out),
            Step::Blocks(count) => self.show_blocks(*count, out),
            Step::Calls => self.show_calls(out),
            other => {
                self.turn(other);
                Ok(false)
            }
        }
    }

    /// Turns the device's switch.
    fn turn(&mut self, step: &Step) {
        match step {
            Step::Fail { behind, effect } => self.switch.fail_behind(*behind, *effect),
            Step::Stop(behind) => self.switch.stop_behind(*behind),
            Step::Bend(bent) => {
                self.is_told = false;
                self.switch.bend(Some(*bent));
            }
            Step::Mend => {
                self.switch.mend();
                self.switch.bend(None);
            }
            _ => {}
        }
    }

    /// Takes a step with the store that is open.
    fn with_store(&mut self, step: &StoreStep, out: &mut String) -> Result<bool, Trouble> {
        let Held::Store(store) = &mut self.held else {
            return Err(Trouble::Wrong("no store is open"));
        };
        let failed = take_with(self.alloc, store, &mut self.record, step, out)?;
        self.shown = store.version_n();
        Ok(failed)
    }

    /// Closes what is open, and gives the device.
    fn close(&mut self) -> Result<Device, Trouble> {
        match mem::replace(&mut self.held, Held::Nothing) {
            Held::Nothing => Ok(Device::new(self.alloc, self.switch.clone()?)?),
            Held::Device(device) => Ok(Box::into_inner(device)),
            Held::Store(store) => Ok(Box::into_inner(store).into_volume()),
            Held::Back(back) => Ok(Box::into_inner(back).into_volume()),
        }
    }

    /// Keeps a device without a store.
    fn keep(&mut self, device: Device) -> Result<(), Trouble> {
        self.held = Held::Device(Box::new(self.alloc, device)?);
        Ok(())
    }

    /// Makes a store: on a new device, or on the one at hand where no store was made there.
    fn make(&mut self, most: Most, out: &mut String) -> Result<bool, Trouble> {
        if self.made {
            self.held = Held::Nothing;
        }
        self.record = Record::new(self.alloc)?;
        self.most = most;
        self.made = false;
        self.shown = 0;
        self.is_told = true;
        let device = self.close()?;
        match Store::create(self.alloc, device, limits_of(most)) {
            Ok(store) => {
                self.held = Held::Store(Box::new(self.alloc, store)?);
                self.made = true;
                out.push_str("made")?;
                Ok(false)
            }
            Err(Unmade { volume, why }) => {
                self.keep(volume)?;
                push_open(out, why)
            }
        }
    }

    /// Opens the device again, as it reads.
    fn open(&mut self, out: &mut String) -> Result<bool, Trouble> {
        let device = self.close()?;
        let opened = self.open_device(device, out)?;
        Ok(opened == Opened::Failed)
    }

    /// Lets the device crash, and opens what that leaves.
    pub fn crash(&mut self, pick: u64, out: &mut String) -> Result<Opened, Trouble> {
        let device = self.close()?.crash(pick)?;
        self.open_device(device, out)
    }

    /// Opens a device. It has to hold what was committed.
    fn open_device(&mut self, device: Device, out: &mut String) -> Result<Opened, Trouble> {
        match Store::open_store(self.alloc, device, limits_of(self.most)) {
            Ok(store) => self.compare(store, out),
            Err(Unmade { volume, why }) => {
                self.keep(volume)?;
                let _failed = push_open(out, why)?;
                self.unopened(why)
            }
        }
    }

    /// What an opening gave that found no store. That is a store that wasn't made, the device's fault, or damage that was done.
    fn unopened(&self, why: OpenFault) -> Result<Opened, Trouble> {
        match why {
            OpenFault::NotMade => {
                hold(!self.made || !self.is_told, "a store that was made is gone")?;
                Ok(Opened::NotMade)
            }
            OpenFault::Damaged { .. } => {
                hold(!self.is_told, "damage that nobody did")?;
                Ok(Opened::Damaged)
            }
            OpenFault::Vol => Ok(Opened::Failed),
            OpenFault::Memory => Err(Trouble::Memory),
        }
    }

    /// Compares a store that was opened with what was committed.
    fn compare(&mut self, store: Store<Device>, out: &mut String) -> Result<Opened, Trouble> {
        let (found, shown) = (store.hist_len(), store.version_n());
        hold(
            shown <= found,
            "a version of more transactions than there are",
        )?;
        write!(out, "found {found} shown {shown}")?;
        let mut more = false;
        let mut store = store;
        if self.is_told {
            hold(self.shown <= shown, "a version that was published is gone")?;
            (store, more) = self.compare_entries(store)?;
        }
        self.made = true;
        self.shown = shown;
        self.held = Held::Store(Box::new(self.alloc, store)?);
        Ok(Opened::Store { found, shown, more })
    }

    /// Compares the transactions of a store with what was committed, and opens it once more, past the switch. Says whether there is
    /// one more.
    fn compare_entries(&mut self, store: Store<Device>) -> Result<(Store<Device>, bool), Trouble> {
        let places = Vec::from_slice(self.alloc, store.refs())?;
        let mut device = store.into_volume();
        self.switch.pass(true);
        let Ok(found) = found_at(self.alloc, &mut device, &places) else {
            return Err(Trouble::Memory);
        };
        let Ok(store) = Store::open_store(self.alloc, device, limits_of(self.most)) else {
            return Err(Trouble::Wrong("a store that isn't opened twice"));
        };
        self.switch.pass(false);
        let more = self.record.find(found)?;
        Ok((store, more))
    }

    /// Opens the device for sessions, or makes a store there.
    fn begin(&mut self, out: &mut String) -> Result<bool, Trouble> {
        let device = self.close()?;
        self.is_told = false;
        self.made = true;
        let store = match open_or_create(self.alloc, device) {
            Ok(store) => store,
            Err(Unmade { volume, why }) => {
                self.keep(volume)?;
                return push_open(out, why);
            }
        };
        let Ok(back) = StoreBack::over(self.alloc, store, &Telling::of(&())) else {
            return Err(Trouble::Memory);
        };
        self.held = Held::Back(Box::new(self.alloc, back)?);
        out.push_str("begun")?;
        Ok(false)
    }

    /// Serves a session of some requests, and adds the replies. The device failed where that is the whole reply.
    fn ask(&mut self, frames: &[u8], out: &mut String) -> Result<bool, Trouble> {
        let Held::Back(back) = &mut self.held else {
            return Err(Trouble::Wrong("no session is open"));
        };
        let source = MemSource::new(self.alloc, frames, 100, &[])?;
        let sink = MemSink::new(self.alloc, 100, &[])?;
        let mut wire = Both::new(source, sink);
        let mut front = FrameFront::new(self.alloc);
        let mut clock = MemClock::steady(self.alloc, NOW);
        let ended = serve(self.alloc, &mut front, &mut **back, &mut wire, &mut clock);
        hold(ended == Ended::Finished, "a session that isn't finished")?;
        push_shown(out, wire.sink.bytes())?;
        Ok(wire.sink.bytes() == b"E 52 0\n".as_slice())
    }

    /// Changes a byte of the device.
    fn change(&mut self, bent: &Bent) -> Result<bool, Trouble> {
        let mut device = self.close()?;
        self.is_told = false;
        self.switch.pass(true);
        let answer = device.write_at(bent.file, bent.at, &[bent.byte]);
        self.switch.pass(false);
        self.keep(device)?;
        hold(answer.is_ok(), "a device that fails")?;
        Ok(false)
    }

    /// Cuts a file of the device.
    fn cut(&mut self, file: u64, len: u64) -> Result<bool, Trouble> {
        let mut device = self.close()?;
        self.is_told = false;
        self.switch.pass(true);
        let answer = device.cut(file, len);
        self.switch.pass(false);
        self.keep(device)?;
        hold(answer.is_ok(), "a device that fails")?;
        Ok(false)
    }

    /// The bytes of a file. What is open is closed.
    pub fn bytes_of(&mut self, file: u64) -> Result<Vec<u8>, Trouble> {
        let mut device = self.close()?;
        self.switch.pass(true);
        let bytes = file_bytes(self.alloc, &mut device, file);
        self.switch.pass(false);
        self.keep(device)?;
        match bytes {
            Ok(bytes) => Ok(bytes),
            Err(_) => Err(Trouble::Memory),
        }
    }

    /// Shows the bytes of a file.
    fn show_bytes(&mut self, file: u64, out: &mut String) -> Result<bool, Trouble> {
        let bytes = self.bytes_of(file)?;
        write!(out, "bytes {file} ")?;
        push_digits(out, &bytes)?;
        Ok(false)
    }

    /// Shows which of the first blocks have bytes.
    fn show_blocks(&mut self, count: u64, out: &mut String) -> Result<bool, Trouble> {
        let mut device = self.close()?;
        self.switch.pass(true);
        let blocks = blocks_of(self.alloc, &mut device, count);
        self.switch.pass(false);
        self.keep(device)?;
        let Ok(blocks) = blocks else {
            return Err(Trouble::Memory);
        };
        write!(out, "blocks{blocks}")?;
        Ok(false)
    }

    /// Shows how many calls the device has had since this was asked last.
    fn show_calls(&mut self, out: &mut String) -> Result<bool, Trouble> {
        let calls = self.switch.calls().saturating_sub(self.asked);
        self.asked = self.switch.calls();
        write!(out, "calls {calls}")?;
        Ok(false)
    }

    /// Takes a step with the store, on a device that doesn't fail.
    fn expect(&mut self, step: &StoreStep, scratch: &mut String) -> Result<(), Trouble> {
        let failed = self.with_store(step, scratch)?;
        hold(!failed, "a fault of a device that doesn't fail")
    }

    /// Makes rounds until all transactions are shown. Each of them shows more.
    fn show_all(&mut self, scratch: &mut String) -> Result<(), Trouble> {
        for _ in self.shown..self.record.len() {
            let before = self.shown;
            if before < self.record.len() {
                self.expect(&StoreStep::Round(None), scratch)?;
                hold(before < self.shown, "a round that shows nothing new")?;
            }
        }
        hold(
            self.shown == self.record.len(),
            "a version of fewer transactions",
        )
    }

    /// Compares a store with the plain replay as it stands, when all is applied, and when the older versions are gone. No call fails.
    pub fn finish(&mut self, scratch: &mut String) -> Result<(), Trouble> {
        self.switch.mend();
        if !self.is_told || !matches!(&self.held, Held::Store(_)) {
            return Ok(());
        }
        self.expect(&StoreStep::Check, scratch)?;
        self.show_all(scratch)?;
        self.expect(&StoreStep::Check, scratch)?;
        if let Held::Store(store) = &mut self.held {
            retire_others(store);
        }
        self.expect(&StoreStep::Sweep, scratch)?;
        self.expect(&StoreStep::Check, scratch)
    }
}
