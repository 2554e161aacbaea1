//! Tests of reading a journal back: groups of each kind, what was printed and is read again, the first bad line, and reading that
//! goes on after a fault.
#![tactic(auto)]

#[cfg(test)]
mod bad;
#[cfg(test)]
mod faults;
#[cfg(test)]
mod good;
#[cfg(test)]
mod printed;
#[cfg(test)]
mod texts;
