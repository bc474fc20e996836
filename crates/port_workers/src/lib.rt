//! Workers that take turns at one task until each is done, and the gate that they call on their way.
#![tactic(auto)]

ghost use Rattle.std.specs.Prelude.{ℕ, ◌<◌, ◌≤◌};
ghost use Rattle.std.specs.Bool.{OnFalse};

mod gate;

pub use gate::{Gate, Open};
use std::sync::Wait;
use std::thread;
use std::thread::Threads;

/// As many workers as there are at most.
pub const MOST_WORKERS: usize = 16;

/// What workers do, each by turns of its own. They share the task, and a task that needs the runtime holds a reference to it.
pub trait Task {
    /// That this worker has nothing left to do.
    ghost finished: { Self → ℕ → Type 0 };

    /// One turn of a worker. False when that worker is done, true when it goes on.
    fn turn(&self, worker: usize) -> bool
        ensures { OnFalse result (finished self.now worker) };
}

/// Turns of one worker, until one answers false.
fn work<R: Wait, T: Task>(rt: &R, task: &T, worker: usize)
    ensures { T.finished task.now worker }
{
    for _ in rt.forever() {
        if !task.turn(worker) {
            return;
        }
    }
    unreachable!()
}

/// Runs the workers 0, 1 and so on side by side, until each is done. Where no thread can be made, they run one after another.
pub fn drive<R: Threads + Wait + Sync, T: Task + Sync>(rt: &R, workers: usize, task: &T)
    requires { (0 < workers) × (workers ≤ MOST_WORKERS) }
    ensures { (worker : ℕ) → worker < workers → T.finished task.now worker }
{
    let mut seats = [(); MOST_WORKERS];
    let run = |worker: usize, _seat: &mut ()|
        ensures { T.finished task.entry.now worker }
    { work(rt, task, worker) };
    thread::for_each_mut(rt, &mut seats[..workers], workers, &run);
}
