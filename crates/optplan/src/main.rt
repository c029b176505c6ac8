//! optplan: an optimal sequential planner for PDDL. `solve` runs no checker: with a plan or `unsolvable` it produces a
//! certificate that the separate checker provably accepts, if the certificate's text has at most 2^30 bytes.
#![tactic(auto)]

ghost use Rattle.std.specs.Prelude.{◌≡◌};

use optplan_command::run;
use optplan_device::{Device, ProcessDevice};
use optplan_replies::{Fault, Status, report};
use std::io::ErrorKind;
use std::process::ExitCode;

/// The line that `clap` prints for arguments that are no text.
const NO_TEXT: &[u8] = b"error: invalid UTF-8 was detected in one or more arguments\n";

/// Reports arguments that are no text, and returns the exit status.
fn report_no_text<D: Device>(device: &mut D) -> Status
    ensures { result ≡ Status.Misused }
{
    let _ = device.err(NO_TEXT);
    Status::Misused
}

fn main(rt: HostRuntime) -> ExitCode {
    let mut device = ProcessDevice::new(&rt);
    let words: Result<Vec<String>, ErrorKind> = match std::env::args(&rt) {
        Ok(args) => args.collect(rt.alloc()).map_err(|_| ErrorKind::OutOfMemory),
        Err(error) => Err(error.kind()),
    };
    let status = match words {
        Ok(words) => run(&words, &mut device, &rt),
        Err(ErrorKind::OutOfMemory) => report(rt.alloc(), &mut device, &Fault::OutOfMemory),
        Err(_) => report_no_text(&mut device),
    };
    ExitCode::from(status.code())
}
