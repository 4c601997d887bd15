//! Gates that hold the worker of a hart until those of the others have come as far as a test asks.
ghost use Rattle.std.specs.Prelude.{◌≡◌};

use pl_base::Gate;
use pl_base::layout::MAX_HARTS;
use std::hint;
use std::sync::atomic::{AtomicBool, AtomicU64, Ordering};

/// How many turns a gate waits, before it gives up and lets the worker pass.
const MOST_TURNS: u32 = 200_000_000;

/// Holds each hart at its first record until all harts are there.
#[derive(Drop)]
pub struct Meeting {
    harts: u8,
    /// A bit for each hart that has come to its first record.
    came: AtomicU64,
    gave_up: AtomicBool,
}

impl Meeting {
    /// A gate that so many harts come to.
    pub fn new(harts: u8) -> Meeting
        ensures { result.harts ≡ harts }
    {
        Meeting {
            harts,
            came: AtomicU64::new(0),
            gave_up: AtomicBool::new(false),
        }
    }

    fn all_came(&self) -> bool {
        self.came.load(Ordering::SeqCst).count_ones() >= u32::from(self.harts)
    }

    /// Whether all harts came, and none passed before that.
    pub fn was_held(&self) -> bool {
        self.all_came() && !self.gave_up.load(Ordering::SeqCst)
    }
}

impl Gate for Meeting {
    fn pass(&self, hart: u8, number: u32) {
        if number != 1 || hart >= MAX_HARTS {
            return;
        }
        self.came.fetch_or(1 << hart, Ordering::SeqCst);
        for _ in 0..MOST_TURNS {
            if self.all_came() {
                return;
            }
            hint::spin_loop();
        }
        self.gave_up.store(true, Ordering::SeqCst);
    }
}

/// Holds hart 0 at its first record until hart 1 was turned three times at its own first record, and then looks whether
/// hart 1 has come to its second.
#[derive(Drop)]
pub struct Order {
    /// How often hart 1 passed with its first record, and with its second.
    firsts: AtomicU64,
    seconds: AtomicU64,
    /// How often it had passed with its second when hart 0 was let through.
    early: AtomicU64,
    held: AtomicBool,
    gave_up: AtomicBool,
}

impl Order {
    /// A gate that no hart has passed.
    pub fn new() -> Order {
        Order {
            firsts: AtomicU64::new(0),
            seconds: AtomicU64::new(0),
            early: AtomicU64::new(0),
            held: AtomicBool::new(false),
            gave_up: AtomicBool::new(false),
        }
    }

    // Waits for hart 1.
    fn hold(&self) {
        self.held.store(true, Ordering::SeqCst);
        for _ in 0..MOST_TURNS {
            if self.firsts.load(Ordering::SeqCst) >= 3 {
                let early = self.seconds.load(Ordering::SeqCst);
                self.early.store(early, Ordering::SeqCst);
                return;
            }
            hint::spin_loop();
        }
        self.gave_up.store(true, Ordering::SeqCst);
    }

    /// Whether hart 0 was held and no gate gave up.
    pub fn was_held(&self) -> bool {
        self.held.load(Ordering::SeqCst) && !self.gave_up.load(Ordering::SeqCst)
    }

    /// How often hart 1 passed with its second record while hart 0 was held.
    pub fn early(&self) -> u64 {
        self.early.load(Ordering::SeqCst)
    }
}

impl Gate for Order {
    fn pass(&self, hart: u8, number: u32) {
        match (hart, number) {
            (0, 1) => self.hold(),
            (1, 1) => {
                self.firsts.fetch_add(1, Ordering::SeqCst);
            }
            (1, 2) => {
                self.seconds.fetch_add(1, Ordering::SeqCst);
            }
            _ => {}
        }
    }
}
