//! A device in memory, which records its reads and writes, and fails from a chosen call on. For tests.

ghost use Rattle.std.specs.Prelude.{◌≡◌, ◌<◌, ◌-◌, ◌^◌, true, ◌+◌, ◌∷◌, [], ◌++◌, if◌then◌else◌, Some, map, string_bytes, IfOk, IfErr, OnOk, OnErr};
ghost use Rattle.optplan_device.specs.Events.{failure_of};
ghost use Rattle.optplan_device.specs.Memory.{event_of};

use crate::device::{Device, DeviceFault};
use std::alloc::{AllocError, Global};

/// A completed read or write.
#[derive(Debug, Drop)]
pub enum Recorded {
    /// The name of a file, and the bytes that were read.
    Read(String, Vec<u8>),
    /// The name of a file, and the bytes that were written.
    Written(String, Vec<u8>),
    /// Bytes that were written to standard output.
    Put(Vec<u8>),
    /// Bytes that were written to standard error.
    Reported(Vec<u8>),
}

/// Files by their names, and the reads and writes so far.
#[derive(Drop)]
pub struct MemoryDevice<'a> {
    alloc: Global,
    files: &'a [(&'a str, &'a [u8])],
    events: Vec<Recorded>,
    calls_left: u64,
    failures: u64,
}

impl<'a> MemoryDevice<'a> {
    /// Creates a device with these files, each a name and bytes, which fails every call after the first `calls_left`
    /// ones.
    pub fn new(alloc: Global, files: &'a [(&'a str, &'a [u8])], calls_left: u64) -> MemoryDevice<'a>
        ensures files { result.files.now ≡ files.now }
        ensures calls { result.calls_left ≡ calls_left }
        ensures events { result.events.items ≡ [] }
        ensures failures { result.failures ≡ 0 }
    {
        MemoryDevice {
            alloc,
            files,
            events: Vec::new(alloc),
            calls_left,
            failures: 0,
        }
    }

    /// Returns the reads and writes so far, in order.
    pub fn events(&self) -> &[Recorded]
        ensures { result.now ≡ self.now.events.items }
    {
        &self.events
    }

    /// Returns whether this call is to fail; if so, the failure is counted.
    fn fails(&mut self) -> bool
        ensures events { self.new.events ≡ self.old.events }
        ensures counted { self.new.failures ≡ (if result then self.old.failures + 1 else self.old.failures) }
        ensures failed { self.old.calls_left ≡ 0 → self.old.failures < 2 ^ 64 - 1 → result ≡ true }
    {
        if self.calls_left == 0 && self.failures < u64::MAX {
            self.failures += 1;
            return true;
        }
        if self.calls_left > 0 {
            self.calls_left -= 1;
        }
        false
    }

    /// Returns the fault for a file that does not exist: `Failed`, which is counted, or `Memory` if the count is at its
    /// maximum.
    fn refusal(&mut self) -> DeviceFault
        ensures events { self.new.events ≡ self.old.events }
        ensures counted { self.new.failures ≡ self.old.failures + failure_of result }
        ensures failed { self.old.failures < 2 ^ 64 - 1 → result ≡ DeviceFault.Failed }
    {
        if self.failures == u64::MAX {
            return DeviceFault::Memory;
        }
        self.failures += 1;
        DeviceFault::Failed
    }

    /// Returns the bytes of a file, if it exists.
    fn file(&self, name: &str) -> Option<&'a [u8]> {
        for (known, bytes) in self.files {
            if *known == name {
                return Some(*bytes);
            }
        }
        None
    }
}

fn named_copy(alloc: Global, name: &str, bytes: &[u8]) -> Result<(String, Vec<u8>), AllocError>
    ensures { IfOk result (λ r. (string_bytes r.0 ≡ name.now) × (r.1.items ≡ bytes.now)) }
{
    let name = String::from_str(alloc, name)?;
    let bytes = Vec::from_slice(alloc, bytes)?;
    Ok((name, bytes))
}

fn note(events: &mut Vec<Recorded>, event: Recorded) -> Result<(), DeviceFault>
    ensures ok { OnOk result (map event_of events.new.items ≡ map event_of events.old.items ++ event_of event ∷ []) }
    ensures err { OnErr result (events.new.items ≡ events.old.items) }
    ensures fault { IfErr result (λ e. e ≡ DeviceFault.Memory) }
{
    match events.push(event) {
        Ok(()) => Ok(()),
        Err(_) => Err(DeviceFault::Memory),
    }
}

impl<'a> Device for MemoryDevice<'a> {
    ghost history = { λ d. Some (map event_of d.events.items) };

    ghost failure_count = { λ d. d.failures };

    fn read(&mut self, alloc: Global, name: &str) -> Result<Vec<u8>, DeviceFault> {
        if self.fails() {
            return Err(DeviceFault::Failed);
        }
        let Some(bytes) = self.file(name) else {
            return Err(self.refusal());
        };
        let Ok((name, kept)) = named_copy(self.alloc, name, bytes) else {
            return Err(DeviceFault::Memory);
        };
        let Ok(bytes) = Vec::from_slice(alloc, bytes) else {
            return Err(DeviceFault::Memory);
        };
        note(&mut self.events, Recorded::Read(name, kept))?;
        Ok(bytes)
    }

    fn write(&mut self, name: &str, bytes: &[u8]) -> Result<(), DeviceFault> {
        if self.fails() {
            return Err(DeviceFault::Failed);
        }
        let Ok((name, bytes)) = named_copy(self.alloc, name, bytes) else {
            return Err(DeviceFault::Memory);
        };
        note(&mut self.events, Recorded::Written(name, bytes))
    }

    fn out(&mut self, bytes: &[u8]) -> Result<(), DeviceFault> {
        if self.fails() {
            return Err(DeviceFault::Failed);
        }
        let Ok(bytes) = Vec::from_slice(self.alloc, bytes) else {
            return Err(DeviceFault::Memory);
        };
        note(&mut self.events, Recorded::Put(bytes))
    }

    fn err(&mut self, bytes: &[u8]) -> Result<(), DeviceFault> {
        if self.fails() {
            return Err(DeviceFault::Failed);
        }
        let Ok(bytes) = Vec::from_slice(self.alloc, bytes) else {
            return Err(DeviceFault::Memory);
        };
        note(&mut self.events, Recorded::Reported(bytes))
    }

    fn failures(&self) -> u64 {
        self.failures
    }
}
