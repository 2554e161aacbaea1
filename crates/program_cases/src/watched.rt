ghost use Rattle.std.specs.Prelude.{◌≡◌, ◌<◌, length};

use crate::runs::{BOTH, FIRST, LINE, ONE, TWO, WORDS, shelf_of, status_of};
use dispatch_top::Status;
use ride_base::{BeginFault, Failed, MemorySink, Shelf, Sink};
use std::alloc::Global;
use std::cell::Cell;
use std::test::Fail;
use std::thread::Threads;

/// How many bytes a sink has taken, and how many it had at each of the first reads of the text that was begun last.
#[derive(Drop)]
struct Log {
    taken: Cell<usize>,
    reads: Cell<usize>,
    at_reads: Cell<[usize; 4]>,
}

impl Log {
    fn new() -> Log {
        Log {
            taken: Cell::new(0),
            reads: Cell::new(0),
            at_reads: Cell::new([0; 4]),
        }
    }

    fn note_read(&self) {
        let read = self.reads.get();
        let mut at_reads = self.at_reads.get();
        if read < 4 {
            at_reads[read] = self.taken.get();
        }
        self.at_reads.set(at_reads);
        self.reads.set(read.saturating_add(1));
    }
}

/// A shelf whose reads are noted.
#[derive(Drop)]
struct WatchedShelf<'a, S: Drop> {
    inner: S,
    log: &'a Log,
}

impl<'a, S: Shelf + Drop> Shelf for WatchedShelf<'a, S> {
    ghost seen = { λ s. S.seen s.inner };

    fn begin(&mut self, name: &str) -> Result<(), BeginFault> {
        self.log.reads.set(0);
        self.inner.begin(name)
    }

    fn read(&mut self, piece: &mut [u8]) -> Result<usize, Failed> {
        self.log.note_read();
        self.inner.read(piece)
    }
}

/// A sink whose bytes are counted.
#[derive(Drop)]
struct WatchedSink<'a, K: Drop> {
    inner: K,
    log: &'a Log,
}

impl<'a, K: Sink + Drop> Sink for WatchedSink<'a, K> {
    ghost seen = { λ s. K.seen s.inner };

    fn put(&mut self, piece: &[u8]) -> Result<usize, Failed> {
        let taken = self.inner.put(piece)?;
        self.log
            .taken
            .set(self.log.taken.get().saturating_add(taken));
        Ok(taken)
    }
}

/// Runs over two rides, of which each read gives one line.
fn run_watched<R: Threads + Sync>(rt: &R, alloc: Global, log: &Log) -> Result<Status, Fail> {
    let mut shelf = shelf_of(alloc, [LINE, ONE, TWO])?;
    shelf.pieces(12);
    let mut shelf = WatchedShelf { inner: shelf, log };
    let mut sink = WatchedSink {
        inner: MemorySink::new(alloc, 1000)?,
        log,
    };
    status_of(rt, alloc, WORDS, &mut shelf, &mut sink)
}

#[test]
fn a_line_is_answered_before_the_next_is_read(rt: HostRuntime) -> Result<(), Fail> {
    let log = Log::new();
    let ended = run_watched(&rt, rt.alloc(), &log)?;
    assert_eq!(rt; ended, Status::Done);
    assert_eq!(rt; log.reads.get(), 3);
    assert_eq!(rt; log.at_reads.get(), [0, FIRST.len(), BOTH.len(), 0]);
    Ok(())
}
