//! The files and streams of the process.

ghost use Rattle.std.specs.Prelude.{◌≡◌, ◌≢◌, ◌<◌, ◌-◌, ◌+◌, ◌^◌, None};
ghost use Rattle.optplan_device.specs.Events.{failure_of};

use crate::device::{Device, DeviceFault};
use std::alloc::Global;
use std::io::{ErrorKind, Write};
use std::rt::Files;
use std::{fs, io};

/// The files of the system by their paths, and the process's own streams. It specifies no history.
#[derive(Drop)]
pub struct ProcessDevice<'a, R: Files + Print + Eprint + AllocGlobal> {
    rt: &'a R,
    failures: u64,
}

impl<'a, R: Files + Print + Eprint + AllocGlobal> ProcessDevice<'a, R> {
    /// Creates the device of this runtime's process.
    pub fn new(rt: &'a R) -> ProcessDevice<'a, R>
        ensures { result.failures ≡ 0 }
    {
        ProcessDevice { rt, failures: 0 }
    }

    /// Returns the fault for an error of this kind: `Memory` if it is `OutOfMemory` or the count of failures is at its
    /// maximum, otherwise `Failed`, which is counted.
    fn fault_of(&mut self, kind: ErrorKind) -> DeviceFault
        ensures counted { self.new.failures ≡ self.old.failures + failure_of result }
        ensures failed { kind ≢ ErrorKind.OutOfMemory → self.old.failures < 2 ^ 64 - 1 → result ≡ DeviceFault.Failed }
    {
        if kind == ErrorKind::OutOfMemory || self.failures == u64::MAX {
            return DeviceFault::Memory;
        }
        self.failures += 1;
        DeviceFault::Failed
    }
}

impl<'a, R: Files + Print + Eprint + AllocGlobal> Device for ProcessDevice<'a, R> {
    ghost history = { λ _. None };

    ghost failure_count = { λ d. d.failures };

    fn read(&mut self, _alloc: Global, name: &str) -> Result<Vec<u8>, DeviceFault> {
        match fs::read(self.rt, name) {
            Ok(bytes) => Ok(bytes),
            Err(error) => Err(self.fault_of(error.kind())),
        }
    }

    fn write(&mut self, name: &str, bytes: &[u8]) -> Result<(), DeviceFault> {
        match fs::write(self.rt, name, bytes) {
            Ok(()) => Ok(()),
            Err(error) => Err(self.fault_of(error.kind())),
        }
    }

    fn out(&mut self, bytes: &[u8]) -> Result<(), DeviceFault> {
        let mut writer = io::writer(self.rt);
        match writer.write_all(bytes) {
            Ok(()) => Ok(()),
            Err(error) => Err(self.fault_of(error.kind())),
        }
    }

    fn err(&mut self, bytes: &[u8]) -> Result<(), DeviceFault> {
        match std::str::from_utf8(bytes) {
            Ok(text) => match self.rt.eprint(text) {
                Ok(()) => Ok(()),
                Err(error) => Err(self.fault_of(error.kind())),
            },
            Err(_) => Err(self.fault_of(ErrorKind::InvalidData)),
        }
    }

    fn failures(&self) -> u64 {
        self.failures
    }
}
