//! The trait of devices, through which a program does its I/O: files and streams.

ghost use Rattle.std.specs.Prelude.{◌≡◌, ◌+◌, ℕ, List, Option, IfOk, IfErr, OnOk, OnErr};
ghost use Rattle.optplan_device.specs.Events.{Event, HasRead, HasWritten, HasPut, HasReported, Adds, failure_of};

use std::alloc::Global;

/// The reason why a read or a write of a device failed.
#[derive(Clone, Copy, Debug, PartialEq, Eq)]
pub enum DeviceFault {
    /// Allocation failed.
    Memory,
    /// The file, or the stream, could not be read or written.
    Failed,
}

/// Files by their names, and the two streams to which a program writes. A device may specify its I/O: then its
/// `history` is the list of all reads and writes so far, in order.
pub trait Device {
    ghost history: { Self → Option (List Event) };

    ghost failure_count: { Self → ℕ };

    /// Reads a whole file and returns its bytes. A failed call adds nothing to the history; its fault is counted if it
    /// is `Failed`.
    fn read(&mut self, alloc: Global, name: &str) -> Result<Vec<u8>, DeviceFault>
        ensures told { IfOk result (λ bytes. Adds (history self.old) (history self.new) (HasRead name.now bytes.items)) }
        ensures kept { OnErr result (history self.new ≡ history self.old) }
        ensures counted { IfErr result (λ e. failure_count self.new ≡ failure_count self.old + failure_of e) }
        ensures same { OnOk result (failure_count self.new ≡ failure_count self.old) };

    /// Writes a whole file. After a failed call the content of the file is unspecified; the call adds nothing to the
    /// history, and its fault is counted if it is `Failed`.
    fn write(&mut self, name: &str, bytes: &[u8]) -> Result<(), DeviceFault>
        ensures told { OnOk result (Adds (history self.old) (history self.new) (HasWritten name.now bytes.now)) }
        ensures kept { OnErr result (history self.new ≡ history self.old) }
        ensures counted { IfErr result (λ e. failure_count self.new ≡ failure_count self.old + failure_of e) }
        ensures same { OnOk result (failure_count self.new ≡ failure_count self.old) };

    /// Writes to standard output. A failed call adds nothing to the history; its fault is counted if it is `Failed`.
    fn out(&mut self, bytes: &[u8]) -> Result<(), DeviceFault>
        ensures told { OnOk result (Adds (history self.old) (history self.new) (HasPut bytes.now)) }
        ensures kept { OnErr result (history self.new ≡ history self.old) }
        ensures counted { IfErr result (λ e. failure_count self.new ≡ failure_count self.old + failure_of e) }
        ensures same { OnOk result (failure_count self.new ≡ failure_count self.old) };

    /// Writes to standard error. A failed call adds nothing to the history; its fault is counted if it is `Failed`.
    fn err(&mut self, bytes: &[u8]) -> Result<(), DeviceFault>
        ensures told { OnOk result (Adds (history self.old) (history self.new) (HasReported bytes.now)) }
        ensures kept { OnErr result (history self.new ≡ history self.old) }
        ensures counted { IfErr result (λ e. failure_count self.new ≡ failure_count self.old + failure_of e) }
        ensures same { OnOk result (failure_count self.new ≡ failure_count self.old) };

    /// Returns the number of calls that failed with `Failed`.
    fn failures(&self) -> u64
        ensures { result ≡ failure_count self.now };
}
