//! Workers that take turns at a task.
use super::common::assert_same;
use port_workers::{Gate, Open, Task, drive};
use std::sync::atomic::{AtomicU64, Ordering};
use std::sync::{Mutex, Wait};

/// Two workers that look for one another; others have nothing to do.
#[derive(Drop)]
struct Meet {
    here: AtomicU64,
    met: AtomicU64,
}

impl Meet {
    fn make() -> Meet {
        Meet {
            here: AtomicU64::new(0),
            met: AtomicU64::new(0),
        }
    }
}

impl Task for Meet {
    ghost finished = { λ _ _. Unit {0} };

    fn turn(&self, worker: usize) -> bool {
        if worker > 1 {
            return false;
        }
        self.here.fetch_add(1, Ordering::SeqCst);
        for _ in 0..4_294_967_296u64 {
            if self.here.load(Ordering::SeqCst) == 2 {
                self.met.fetch_add(1, Ordering::SeqCst);
                break;
            }
        }
        false
    }
}

#[test]
fn workers_see_one_another_at_work(rt: HostRuntime) {
    for workers in [2, 16] {
        let task = Meet::make();
        drive(&rt, workers, &task);
        assert_same(&rt, &task.met.load(Ordering::SeqCst), &2, "how many met");
    }
}

const FRAMES: u32 = 1000;

/// Frames that are held one by one, by whichever worker comes.
#[derive(Drop)]
struct Frames<'a, R: Wait, G: Gate> {
    rt: &'a R,
    gate: &'a G,
    next: Mutex<u32>,
}

impl<'a, R: Wait, G: Gate> Task for Frames<'a, R, G> {
    ghost finished = { λ _ _. Unit {0} };

    fn turn(&self, _worker: usize) -> bool {
        let mut next = self.next.lock(self.rt);
        let id = *next;
        if id >= FRAMES {
            return false;
        }
        *next = id + 1;
        self.gate.held(id);
        true
    }
}

/// The sum of the ids that were held.
#[derive(Drop)]
struct Sum {
    ids: AtomicU64,
}

impl Gate for Sum {
    fn held(&self, id: u32) {
        self.ids.fetch_add(u64::from(id), Ordering::SeqCst);
    }
}

#[test]
fn each_frame_is_held_once(rt: HostRuntime) {
    for workers in [1, 3] {
        let gate = Sum {
            ids: AtomicU64::new(0),
        };
        drive(
            &rt,
            workers,
            &Frames {
                rt: &rt,
                gate: &gate,
                next: Mutex::new(0),
            },
        );
        assert_same(&rt, &gate.ids.load(Ordering::SeqCst), &499_500, "the sum");
    }
    drive(
        &rt,
        2,
        &Frames {
            rt: &rt,
            gate: &Open,
            next: Mutex::new(0),
        },
    );
}
