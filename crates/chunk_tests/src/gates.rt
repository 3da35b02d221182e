//! A gate and a namer that watch workers, for the tests of naming and scanning.
ghost use Rattle.chunk_names.specs.LengthNames.{length_name, length-length_name};

use chunk_names::{LengthNamer, Namer};
use sd_base::{Gate, Stage};
use std::sync::atomic::{AtomicBool, AtomicU64, Ordering};
use std::thread;

/// Notes which of the first 64 pieces of a stage of batch 7 begin, one bit a piece, and counts its
/// calls. A piece of a scan is held until all that are awaited are held, and so is a chunk as it is
/// named, whose length is its bit. It is noted if one is held for too long, or if the piece with
/// the number 0 or 1 has not begun when the chunk of length 1 or 2 is named.
#[derive(Drop)]
pub struct Watch {
    stage: Stage,
    awaited: u64,
    pieces: AtomicU64,
    calls: AtomicU64,
    held: AtomicU64,
    failed: AtomicBool,
}

impl Watch {
    pub fn new(stage: Stage, awaited: u64) -> Watch {
        Watch {
            stage,
            awaited,
            pieces: AtomicU64::new(0),
            calls: AtomicU64::new(0),
            held: AtomicU64::new(0),
            failed: AtomicBool::new(false),
        }
    }

    /// Whether these pieces began, this many calls were made, and nothing failed.
    pub fn has_noted(&self, pieces: u64, calls: u64) -> bool {
        self.pieces.load(Ordering::SeqCst) == pieces
            && self.calls.load(Ordering::SeqCst) == calls
            && !self.failed.load(Ordering::SeqCst)
    }

    // Holds a bit until all that are awaited are held.
    fn hold(&self, bit: u64) {
        self.held.fetch_or(bit, Ordering::SeqCst);
        for _ in 0..50_000_000u32 {
            if self.held.load(Ordering::SeqCst) & self.awaited == self.awaited {
                return;
            }
            thread::yield_now();
        }
        self.failed.store(true, Ordering::SeqCst);
    }
}

impl Gate for Watch {
    fn at(&self, stage: Stage, batch: u32, piece: u32) {
        self.calls.fetch_add(1, Ordering::SeqCst);
        if stage == self.stage && batch == 7 && piece < 64 {
            self.pieces.fetch_or(1 << piece, Ordering::SeqCst);
        }
        if stage == Stage::Scan {
            self.hold(1 << (piece % 64));
        }
    }
}

impl Namer for Watch {
    ghost name_of = { length_name };

    fn name(&self, bytes: &[u8]) -> [u8; 32] {
        let chunk = bytes.len() as u64;
        if self.pieces.load(Ordering::SeqCst) & chunk == 0 {
            self.failed.store(true, Ordering::SeqCst);
        }
        self.hold(chunk);
        LengthNamer.name(bytes)
    }

    ghost whole = { length-length_name };
}
