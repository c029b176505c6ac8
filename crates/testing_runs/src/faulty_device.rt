//! A device one of whose calls fails.

ghost use Rattle.std.specs.Prelude.{◌≡◌, ◌+◌, None, OnOk, IfErr};
ghost use Rattle.optplan_device.specs.Events.{failure_of};

use crate::runs::CALLS_OF_A_RUN;
use optplan_device::{Device, DeviceFault, MemoryDevice, Recorded};
use std::alloc::Global;

/// Files in memory, and the fault of one call; the other calls are those of the files. It specifies no history.
#[derive(Drop)]
pub struct FaultyDevice<'a> {
    device: MemoryDevice<'a>,
    calls_before: Option<u64>,
    fault: DeviceFault,
    failures: u64,
}

impl<'a> FaultyDevice<'a> {
    /// Creates a device whose call after the first `calls_before` ones fails with this fault.
    pub fn new(
        alloc: Global,
        files: &'a [(&'a str, &'a [u8])],
        calls_before: u64,
        fault: DeviceFault,
    ) -> FaultyDevice<'a> {
        FaultyDevice {
            device: MemoryDevice::new(alloc, files, CALLS_OF_A_RUN),
            calls_before: Some(calls_before),
            fault,
            failures: 0,
        }
    }

    /// Returns the reads and writes so far, in order.
    pub fn events(&self) -> &[Recorded] {
        self.device.events()
    }

    /// Returns the fault to return: `Memory` if `fault` is that or the count of failures is at its maximum, else
    /// `Failed`, which is counted.
    fn counted(&mut self, fault: DeviceFault) -> DeviceFault
        ensures { self.new.failures ≡ self.old.failures + failure_of result }
    {
        if fault == DeviceFault::Memory || self.failures == u64::MAX {
            return DeviceFault::Memory;
        }
        self.failures += 1;
        DeviceFault::Failed
    }

    /// Fails if this is the call that is to fail.
    fn turn(&mut self) -> Result<(), DeviceFault>
        ensures counted { IfErr result (λ e. self.new.failures ≡ self.old.failures + failure_of e) }
        ensures same { OnOk result (self.new.failures ≡ self.old.failures) }
    {
        match self.calls_before {
            Some(0) => {
                self.calls_before = None;
                Err(self.counted(self.fault))
            }
            Some(calls) => {
                self.calls_before = Some(calls - 1);
                Ok(())
            }
            None => Ok(()),
        }
    }
}

impl<'a> Device for FaultyDevice<'a> {
    ghost history = { λ _. None };

    ghost failure_count = { λ d. d.failures };

    fn read(&mut self, alloc: Global, name: &str) -> Result<Vec<u8>, DeviceFault> {
        self.turn()?;
        match self.device.read(alloc, name) {
            Ok(bytes) => Ok(bytes),
            Err(fault) => Err(self.counted(fault)),
        }
    }

    fn write(&mut self, name: &str, bytes: &[u8]) -> Result<(), DeviceFault> {
        self.turn()?;
        match self.device.write(name, bytes) {
            Ok(()) => Ok(()),
            Err(fault) => Err(self.counted(fault)),
        }
    }

    fn out(&mut self, bytes: &[u8]) -> Result<(), DeviceFault> {
        self.turn()?;
        match self.device.out(bytes) {
            Ok(()) => Ok(()),
            Err(fault) => Err(self.counted(fault)),
        }
    }

    fn err(&mut self, bytes: &[u8]) -> Result<(), DeviceFault> {
        self.turn()?;
        match self.device.err(bytes) {
            Ok(()) => Ok(()),
            Err(fault) => Err(self.counted(fault)),
        }
    }

    fn failures(&self) -> u64 {
        self.failures
    }
}
