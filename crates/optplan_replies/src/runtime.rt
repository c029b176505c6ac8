//! What the commands need of the runtime.

use std::sync::Wait;
use std::thread::Threads;
use std::time::Clock;

/// What a command that searches needs of the runtime: threads that may wait, the clock, standard error, and memory.
pub trait Runtime: Threads + Wait + Clock + Eprint + Sync + AllocGlobal {}

impl<R: Threads + Wait + Clock + Eprint + Sync + AllocGlobal> Runtime for R {}
