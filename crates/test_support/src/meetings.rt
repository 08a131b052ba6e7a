//! A gate that tells whether two pieces of a fold are under way together.
use par_stages::Gate;
use std::hint::spin_loop;
use std::sync::atomic::{AtomicBool, AtomicU64, Ordering};

/// A gate at which pieces 0 and 1 of a fold wait for one another. Each has a flag, which stays up only where it saw the other's. Pieces
/// that are not alone in their fold are counted; one that is alone is let pass.
#[derive(Drop)]
pub struct Meeting {
    first: AtomicBool,
    second: AtomicBool,
    shared: AtomicU64,
}

/// How often a piece looks for the other one.
const TURNS: u32 = 1 << 28;

impl Meeting {
    /// A gate that no piece came to.
    pub fn new() -> Meeting {
        Meeting {
            first: AtomicBool::new(false),
            second: AtomicBool::new(false),
            shared: AtomicU64::new(0),
        }
    }

    /// Whether each of the two pieces came while the other one waited.
    pub fn met(&self) -> bool {
        self.first.load(Ordering::SeqCst) && self.second.load(Ordering::SeqCst)
    }

    /// How many pieces came that were not alone in their fold.
    pub fn shared(&self) -> u64 {
        self.shared.load(Ordering::SeqCst)
    }
}

/// Puts up a flag, and takes it down again where the other one does not come up.
fn wait_for(own: &AtomicBool, other: &AtomicBool) {
    own.store(true, Ordering::SeqCst);
    for _ in 0..TURNS {
        if other.load(Ordering::SeqCst) {
            return;
        }
        spin_loop();
    }
    own.store(false, Ordering::SeqCst);
}

impl Gate for Meeting {
    fn piece(&self, k: u32, of: u32) {
        if of == 1 {
            return;
        }
        self.shared.fetch_add(1, Ordering::SeqCst);
        match k {
            0 => wait_for(&self.first, &self.second),
            1 => wait_for(&self.second, &self.first),
            _ => {}
        }
    }
}
