//! The threads of the workers.

use std::sync::{Mutex, Wait};
use std::thread;
use std::thread::Threads;

/// Whether so many workers can run beside each other: threads for all but one of them start, and wait until each has.
pub fn can_run<R: Threads + Wait + Sync>(rt: &R, workers: u32) -> bool {
    let gate = Mutex::new(());
    thread::scope(thread::scope_env(), rt, |scope| {
        let held = gate.lock(rt);
        let mut all = true;
        for _ in 1..workers {
            all &= scope.spawn(|| drop(gate.lock(rt))).is_ok();
        }
        drop(held);
        all
    })
}
