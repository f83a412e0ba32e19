// Which workers have begun.
use std::sync::atomic::{AtomicU64, Ordering};

// So many idle rounds in a row a worker waits for workers that have not begun: some seconds.
const PATIENCE: u32 = 50_000;

// How many workers have begun, of how many, and whether one has given up waiting for the others. Where the system makes no thread for a
// worker, it runs after another one in that one's thread; the first may then wait for ever for what the second has to do.
#[derive(Drop)]
pub(crate) struct RollCall {
    workers: u64,
    begun: AtomicU64,
    given_up: AtomicU64,
}

impl RollCall {
    // A call of so many workers.
    pub(crate) fn of(workers: u64) -> RollCall {
        RollCall {
            workers,
            begun: AtomicU64::new(0),
            given_up: AtomicU64::new(0),
        }
    }

    // A worker begins. The answer is whether it is to go on: no worker has given up.
    pub(crate) fn begin(&self) -> bool {
        self.begun.fetch_add(1, Ordering::SeqCst);
        !self.is_given_up()
    }

    // Whether a worker that was idle for so many rounds gives up: one did so before, or some worker has not begun all that time.
    pub(crate) fn gives_up(&self, idle: u32) -> bool {
        if self.is_given_up() {
            return true;
        }
        if idle < PATIENCE || self.workers <= self.begun.load(Ordering::SeqCst) {
            return false;
        }
        self.given_up.store(1, Ordering::SeqCst);
        true
    }

    fn is_given_up(&self) -> bool {
        self.given_up.load(Ordering::SeqCst) != 0
    }
}
