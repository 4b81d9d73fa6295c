//! A device in memory that fails where it is told to.
ghost use Rattle.qd_io.specs.Ends.{Counts};
ghost use Rattle.std.specs.Prelude.{◌≡◌};

use qd_base::Memory;
use qd_io::IoFault;
use qd_volume::{MemVolume, Volume};
use std::alloc::Global;
use std::cell::Cell;
use std::rc::Rc;

/// What a call that fails has done before it failed. A read, a length and a sync have done nothing.
#[derive(Clone, Copy, Debug, PartialEq, Eq)]
pub enum Effect {
    /// Nothing.
    Nothing,
    /// Of a write the first half of its bytes; of a cut and a removal nothing.
    Half,
    /// All of it.
    All,
}

/// A byte that is read otherwise than it stands.
#[derive(Clone, Copy, Debug, PartialEq, Eq)]
pub struct Bent {
    /// The number of the file.
    pub file: u64,
    /// The place in it.
    pub at: u64,
    /// What is read there.
    pub byte: u8,
}

/// What a device is told to do, and what it did. It is shared with the device, which a store owns meanwhile.
#[derive(Drop)]
pub struct Switch {
    /// How many calls were made; a removal of a file that isn't there is none.
    calls: Cell<u64>,
    /// How many of them failed.
    failed: Cell<u64>,
    /// The number of the call that fails.
    fails: Cell<Option<u64>>,
    /// What that call has done.
    effect: Cell<Effect>,
    /// The number of the call from which on each one fails.
    stops: Cell<Option<u64>>,
    /// The byte that is read otherwise.
    bent: Cell<Option<Bent>>,
    /// Whether calls go past all this: they aren't counted, and none fails.
    passed: Cell<bool>,
}

impl Switch {
    /// No call was made, and none fails.
    pub fn new() -> Switch {
        Switch {
            calls: Cell::new(0),
            failed: Cell::new(0),
            fails: Cell::new(None),
            effect: Cell::new(Effect::Nothing),
            stops: Cell::new(None),
            bent: Cell::new(None),
            passed: Cell::new(false),
        }
    }

    /// How many calls were made.
    pub fn calls(&self) -> u64 {
        self.calls.get()
    }

    /// How many calls failed.
    pub fn failed(&self) -> u64 {
        self.failed.get()
    }

    /// Has the call behind some more fail, once it has done some of what it does.
    pub fn fail_behind(&self, calls: u64, effect: Effect) {
        self.fails.set(Some(self.calls.get().saturating_add(calls)));
        self.effect.set(effect);
    }

    /// Has each call behind some more fail, as on a machine that stops there.
    pub fn stop_behind(&self, calls: u64) {
        self.stops.set(Some(self.calls.get().saturating_add(calls)));
    }

    /// Has a byte read otherwise, or none.
    pub fn bend(&self, bent: Option<Bent>) {
        self.bent.set(bent);
    }

    /// Has no call fail any more.
    pub fn mend(&self) {
        self.fails.set(None);
        self.stops.set(None);
    }

    /// Lets calls go past it, or not any more.
    pub fn pass(&self, passed: bool) {
        self.passed.set(passed);
    }

    /// Counts a call, and says what it has done where it fails.
    fn begin(&self) -> Option<Effect> {
        if self.passed.get() {
            return None;
        }
        let call = self.calls.get();
        self.calls.set(call.saturating_add(1));
        if self.fails.get() == Some(call) {
            self.fail();
            return Some(self.effect.get());
        }
        match self.stops.get() {
            Some(first) if first <= call => {
                self.fail();
                Some(Effect::Nothing)
            }
            _ => None,
        }
    }

    /// Counts a call that fails.
    fn fail(&self) {
        self.failed.set(self.failed.get().saturating_add(1));
    }
}

/// A volume in memory behind a switch. It tells nothing of its content, and counts what fails.
#[derive(Drop)]
pub struct Device {
    inner: MemVolume,
    failed: u64,
    switch: Rc<Switch>,
}

impl Device {
    /// A device without a file.
    pub fn new(alloc: Global, switch: Rc<Switch>) -> Result<Device, Memory> {
        Ok(Device {
            inner: MemVolume::new(alloc, &[])?,
            failed: 0,
            switch,
        })
    }

    /// What a crash leaves: 0 picks what was synced, 1 all that was done, 2 bytes 255 where no sync has reached. No call of it fails.
    pub fn crash(self, pick: u64) -> Result<Device, Memory> {
        let Device {
            inner,
            failed,
            switch,
        } = self;
        switch.mend();
        Ok(Device {
            inner: inner.crash(pick)?,
            failed,
            switch,
        })
    }

    /// Counts what failed.
    fn count<T>(&mut self, answer: Result<T, IoFault>) -> Result<T, IoFault>
        ensures counted { Counts self.old.failed self.new.failed answer }
        ensures same { result ≡ answer }
    {
        if let Err(IoFault::Failed) = &answer {
            self.failed = self.failed.saturating_add(1);
        }
        answer
    }

    /// Changes what was read, where a byte of it is to be read otherwise.
    fn bend(&self, file: u64, at: u64, read: &mut [u8]) {
        let Some(bent) = self.switch.bent.get() else {
            return;
        };
        if bent.file != file || bent.at < at {
            return;
        }
        let place = bent.at - at;
        if place < read.len() as u64 {
            read[place as usize] = bent.byte;
        }
    }
}

/// How many bytes of a write that fails are written.
fn begun(effect: Effect, bytes: &[u8]) -> &[u8] {
    match effect {
        Effect::Nothing => &bytes[..0],
        Effect::Half => &bytes[..bytes.len() / 2],
        Effect::All => bytes,
    }
}

impl Volume for Device {
    ghost use Rattle.std.specs.Prelude.{None};

    ghost storage = { λ device. record { disk = None; faults = device.failed } };

    fn read(&mut self, file: u64, at: u64, buf: &mut [u8]) -> Result<usize, IoFault> {
        if self.switch.begin().is_some() {
            return self.count(Err(IoFault::Failed));
        }
        let answer = self.inner.read(file, at, buf);
        let n = self.count(answer)?;
        self.bend(file, at, &mut buf[..n]);
        Ok(n)
    }

    fn write_at(&mut self, file: u64, at: u64, bytes: &[u8]) -> Result<(), IoFault> {
        if let Some(effect) = self.switch.begin() {
            let answer = self.inner.write_at(file, at, begun(effect, bytes));
            self.count(answer)?;
            return self.count(Err(IoFault::Failed));
        }
        let answer = self.inner.write_at(file, at, bytes);
        self.count(answer)
    }

    fn cut(&mut self, file: u64, len: u64) -> Result<(), IoFault> {
        if let Some(effect) = self.switch.begin() {
            if effect == Effect::All {
                let answer = self.inner.cut(file, len);
                self.count(answer)?;
            }
            return self.count(Err(IoFault::Failed));
        }
        let answer = self.inner.cut(file, len);
        self.count(answer)
    }

    fn sync(&mut self, file: u64) -> Result<(), IoFault> {
        if self.switch.begin().is_some() {
            return self.count(Err(IoFault::Failed));
        }
        let answer = self.inner.sync(file);
        self.count(answer)
    }

    /// A file that isn't there is no call: of the hundreds that a sweep may remove few are.
    fn remove(&mut self, file: u64) -> Result<(), IoFault> {
        let answer = self.inner.len(file);
        if self.count(answer)? == 0 {
            return Ok(());
        }
        if let Some(effect) = self.switch.begin() {
            if effect == Effect::All {
                let answer = self.inner.remove(file);
                self.count(answer)?;
            }
            return self.count(Err(IoFault::Failed));
        }
        let answer = self.inner.remove(file);
        self.count(answer)
    }

    fn len(&mut self, file: u64) -> Result<u64, IoFault> {
        if self.switch.begin().is_some() {
            return self.count(Err(IoFault::Failed));
        }
        let answer = self.inner.len(file);
        self.count(answer)
    }
}
