//! What a plain reading of a list of entries says of its requests and its clock. It knows nothing of vehicles.
use board_core::{Advanced, CancelReason, Cancelled, Entry, Reason, Submitted};
use fleet_board::Noted;
use insertion_cost::Decision;
use ride_base::{NoMemory, RequestNo};
use std::alloc::Global;
use stop_schedule::Request;

/// Where an accepted request stands.
#[derive(Clone, Copy, PartialEq, Eq)]
enum Standing {
    Waits,
    Held { by: u64 },
    Assigned,
    Nobody,
    Cancelled,
}

/// An accepted request.
#[derive(Clone, Copy)]
struct Kept {
    no: RequestNo,
    stands: Standing,
}

/// The requests that the entries so far accepted, in their order, with the clock, and whether the board is closed.
#[derive(Drop)]
struct Reading {
    kept: Vec<Kept>,
    clock: u64,
    closed: bool,
}

impl Reading {
    /// Before any entry.
    fn new(alloc: Global) -> Reading {
        Reading {
            kept: Vec::new(alloc),
            clock: 0,
            closed: false,
        }
    }

    /// Where the request of a number stands, if it was accepted.
    fn stands(&self, no: RequestNo) -> Option<Standing> {
        for kept in self.kept.as_slice() {
            if kept.no == no {
                return Some(kept.stands);
            }
        }
        None
    }

    /// The oldest request that waits and no desk holds.
    fn oldest(&self) -> Option<RequestNo> {
        for kept in self.kept.as_slice() {
            if kept.stands == Standing::Waits {
                return Some(kept.no);
            }
        }
        None
    }

    /// Puts the request of a number where it stands from now on.
    fn put(&mut self, no: RequestNo, stands: Standing) {
        for kept in self.kept.as_mut_slice() {
            if kept.no == no {
                kept.stands = stands;
            }
        }
    }

    /// Reads what became of a request, and says whether that is lawful. The request has nodes of the graph and riders.
    fn submitted(&mut self, request: &Request, told: Submitted) -> Result<bool, NoMemory> {
        let late = request.moment < self.clock;
        let known = self.stands(request.no).is_some();
        match told {
            Submitted::Accepted => {
                self.kept.push(Kept {
                    no: request.no,
                    stands: Standing::Waits,
                })?;
                Ok(!self.closed && !late && !known)
            }
            Submitted::Refused(Reason::Closed) => Ok(self.closed),
            Submitted::Refused(Reason::Moment) => Ok(!self.closed && late),
            Submitted::Refused(Reason::Repeated) => Ok(!self.closed && !late && known),
            Submitted::Refused(_) => Ok(false),
        }
    }

    /// Reads what became of a move of the clock.
    fn advanced(&mut self, now: u64, told: &Advanced) -> bool {
        match told {
            Advanced::Moved(_) => {
                let later = self.clock <= now;
                self.clock = now;
                later
            }
            Advanced::Back { clock } => *clock == self.clock && now < *clock,
        }
    }

    /// Reads what became of a cancellation.
    fn cancelled(&mut self, no: RequestNo, told: &Cancelled) -> bool {
        let stood = self.stands(no);
        match told {
            Cancelled::Removed(_) => {
                self.put(no, Standing::Cancelled);
                stood == Some(Standing::Assigned)
            }
            Cancelled::Refused(CancelReason::Unknown) => stood.is_none(),
            Cancelled::Refused(CancelReason::Waiting) => {
                matches!(stood, Some(Standing::Waits | Standing::Held { by: _ }))
            }
            Cancelled::Refused(CancelReason::Nobody) => stood == Some(Standing::Nobody),
            Cancelled::Refused(CancelReason::Cancelled) => stood == Some(Standing::Cancelled),
            Cancelled::Refused(CancelReason::Served) => stood == Some(Standing::Assigned),
        }
    }

    /// Reads an entry of a desk that has to hold a request, which stands so from now on.
    fn ended(&mut self, no: RequestNo, by: u64, stands: Standing) -> bool {
        let held = self.stands(no) == Some(Standing::Held { by });
        self.put(no, stands);
        held
    }

    /// Reads the next entry, and says whether it is lawful.
    fn next(&mut self, noted: &Noted) -> Result<bool, NoMemory> {
        let by = noted.desk;
        match &noted.entry {
            Entry::Submit(request, told) => self.submitted(request, *told),
            Entry::Claim(no, desk) => {
                let oldest = self.oldest() == Some(*no);
                self.put(*no, Standing::Held { by });
                Ok(oldest && *desk == by)
            }
            Entry::Back(no) => Ok(self.ended(*no, by, Standing::Waits)),
            Entry::Commit(no, Decision::Assigned(_)) => Ok(self.ended(*no, by, Standing::Assigned)),
            Entry::Commit(no, Decision::Nobody) => Ok(self.ended(*no, by, Standing::Nobody)),
            Entry::Advance(now, told) => Ok(self.advanced(*now, told)),
            Entry::Cancel(no, told) => Ok(self.cancelled(*no, told)),
            Entry::Shut => {
                let opened = !self.closed;
                self.closed = true;
                Ok(opened)
            }
        }
    }
}

/// Whether each entry of a list is lawful, as far as requests and the clock tell, and how many requests were accepted and answered; none
/// where an entry isn't lawful.
pub fn read(alloc: Global, noted: &[Noted]) -> Result<Option<(u64, u64)>, NoMemory> {
    let mut reading = Reading::new(alloc);
    for entry in noted {
        if !reading.next(entry)? {
            return Ok(None);
        }
    }
    let mut answered = 0u64;
    for kept in reading.kept.as_slice() {
        if !matches!(kept.stands, Standing::Waits | Standing::Held { by: _ }) {
            answered = answered.wrapping_add(1);
        }
    }
    Ok(Some((reading.kept.len() as u64, answered)))
}
