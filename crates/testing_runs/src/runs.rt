//! Runs of the program over files in memory.

ghost use Rattle.std.specs.Prelude.{◌≡◌, ◌∷◌, IfOk, map, codes};
ghost use Rattle.pddl_names.specs.Names.{texts_of};

use crate::outcome::{Outcome, RunFault, recorded};
use optplan_command::run;
use optplan_device::MemoryDevice;
use std::alloc::{AllocError, Global};
use std::sync::Wait;
use std::thread::Threads;
use std::time::Clock;

/// A number of calls of the device that no run of the program exceeds.
pub const CALLS_OF_A_RUN: u64 = 100;

/// Returns the program's arguments, its own name first.
pub fn program_words(alloc: Global, words: &[&str]) -> Result<Vec<String>, AllocError>
    ensures { IfOk result (λ all. texts_of all.items ≡ codes "optplan" ∷ map (λ w. w.now) words.now) }
{
    let mut all = vec![in alloc; String::from_str(alloc, "optplan")?]?;
    for word in words {
        all.push(String::from_str(alloc, word)?)?;
    }
    Ok(all)
}

/// Returns the outcome of the program over these files, each a name and bytes.
pub fn run_over<R: Threads + Wait + Clock + Eprint + Sync + AllocGlobal>(
    rt: &R,
    words: &[&str],
    files: &[(&str, &[u8])],
) -> Result<Outcome, RunFault> {
    let words = program_words(rt.alloc(), words)?;
    let mut device = MemoryDevice::new(rt.alloc(), files, CALLS_OF_A_RUN);
    let status = run(&words, &mut device, rt);
    recorded(rt.alloc(), device.events(), status.code())
}
