//! Tests of the lock, of the plane's calls, the queue, the seats and the turns below it, and of runs on one thread and by workers.
mod alone;
mod calls;
mod common;
mod lock;
mod queue;
mod seats;
mod turns;
mod workers;
