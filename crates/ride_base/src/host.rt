ghost use Rattle.std.specs.Prelude.{◌≡◌, ℕ, ◌<◌, ◌≤◌, List, [], length, Option, Some, None, is_some, true, false, IfOk};
ghost use Rattle.ride_base.specs.Outside.{Held, Untold};

use crate::items::Items;
use crate::outside::{BeginFault, Failed, Shelf, Sink};
use std::alloc::Global;
use std::fs;
use std::io::Read;
use std::rt::Files;

/// The files of the system. It tells nothing of what they contain, and isn't sure.
#[derive(Drop)]
pub struct HostShelf<'a, R: Files> {
    rt: &'a R,
    alloc: Global,
    names: Items<Items<u8>>,
    text: Option<R::File>,
    faults: u64,
}

impl<'a, R: Files> HostShelf<'a, R> {
    /// A shelf with no text begun. It takes no memory.
    pub fn new(rt: &'a R, alloc: Global) -> HostShelf<'a, R>
        ensures names { (⟦<HostShelf<'a, R> as Shelf>⟧.seen result).names ≡ [] }
        ensures faults { (⟦<HostShelf<'a, R> as Shelf>⟧.seen result).faults ≡ 0 }
        ensures unbegun { (⟦<HostShelf<'a, R> as Shelf>⟧.seen result).begun ≡ false }
    {
        HostShelf {
            rt,
            alloc,
            names: Items::new(alloc),
            text: None,
            faults: 0,
        }
    }
}

impl<'a, R: Files> Shelf for HostShelf<'a, R> {
    ghost seen = { λ s. record {
      held = λ name. Untold;
      names = s.names;
      left = None;
      begun = is_some s.text;
      sure = false;
      quiet = true;
      faults = s.faults;
    } };

    fn begin(&mut self, name: &str) -> Result<(), BeginFault> {
        let Ok(copy) = Items::from_slice(self.alloc, name.as_bytes()) else {
            return Err(BeginFault::NoMemory);
        };
        if self.names.push(copy).is_err() {
            return Err(BeginFault::NoMemory);
        }
        match fs::open(self.rt, name) {
            Ok(file) => {
                self.text = Some(file);
                Ok(())
            }
            Err(_) => {
                self.text = None;
                self.faults = self.faults.saturating_add(1);
                Err(BeginFault::Failed)
            }
        }
    }

    fn read(&mut self, piece: &mut [u8]) -> Result<usize, Failed> {
        let Some(file) = &mut self.text else {
            return Ok(0);
        };
        match file.read(piece) {
            Ok(count) => Ok(count),
            Err(_) => {
                self.faults = self.faults.saturating_add(1);
                Err(Failed)
            }
        }
    }
}

/// The standard output. It tells nothing of what was written.
#[derive(Drop)]
pub struct HostSink<'a, R: Print> {
    rt: &'a R,
    faults: u64,
}

impl<'a, R: Print> HostSink<'a, R> {
    /// The standard output, with no fault counted yet. It writes nothing and takes no memory.
    pub fn new(rt: &'a R) -> HostSink<'a, R>
        ensures faults { (⟦<HostSink<'a, R> as Sink>⟧.seen result).faults ≡ 0 }
    {
        HostSink { rt, faults: 0 }
    }
}

impl<'a, R: Print> Sink for HostSink<'a, R> {
    ghost seen = { λ s. record { taken = None; quiet = true; faults = s.faults } };

    fn put(&mut self, piece: &[u8]) -> Result<usize, Failed> {
        match self.rt.write_some(piece) {
            Ok(count) if count > 0 => Ok(count),
            _ => {
                self.faults = self.faults.saturating_add(1);
                Err(Failed)
            }
        }
    }
}
