use crate::runs::{LINE, ONE, TWO, ends, shelf_of, status_of};
use dispatch_top::Status;
use ride_base::MemorySink;
use std::alloc::Global;
use std::process::Abort;
use std::test::Fail;
use std::thread::Threads;

/// What is printed of each city before its sums.
const SIZES: &str = "nodes 1600\nroads 6240\nvehicles 60\nrequests 500\n";

/// What is printed of the city of a number.
fn summary_of<R: Threads + Sync + Abort>(
    rt: &R,
    alloc: Global,
    number: &str,
) -> Result<Vec<u8>, Fail> {
    let mut shelf = shelf_of(alloc, [LINE, ONE, TWO])?;
    let mut sink = MemorySink::new(alloc, 1000)?;
    let words = ["gen", number];
    let ended = status_of(rt, alloc, words.as_slice(), &mut shelf, &mut sink)?;
    assert_eq!(rt; ended, Status::Done);
    Ok(Vec::from_slice(alloc, sink.taken())?)
}

/// What stands behind a beginning.
fn behind<'a>(rt: &impl Abort, text: &'a [u8], start: &str) -> Result<&'a [u8], Fail> {
    let rest = text.strip_prefix(start.as_bytes());
    assert!(rt; rest.is_some(), "{}", start);
    Ok(rest.ok_or("no such beginning")?)
}

#[test]
fn a_city_is_summed_up_alike_each_time(rt: HostRuntime) -> Result<(), Fail> {
    let once = summary_of(&rt, rt.alloc(), "7")?;
    let again = summary_of(&rt, rt.alloc(), "007")?;
    assert_eq!(&rt; once.as_slice(), again.as_slice());
    let _sums = behind(&rt, behind(&rt, once.as_slice(), "city 7\n")?, SIZES)?;
    Ok(())
}

#[test]
fn another_number_is_another_city(rt: HostRuntime) -> Result<(), Fail> {
    let first = summary_of(&rt, rt.alloc(), "18446744073709551615")?;
    let second = summary_of(&rt, rt.alloc(), "0")?;
    let largest = behind(&rt, first.as_slice(), "city 18446744073709551615\n")?;
    let least = behind(&rt, second.as_slice(), "city 0\n")?;
    let largest_sums = behind(&rt, largest, SIZES)?;
    let least_sums = behind(&rt, least, SIZES)?;
    assert_ne!(&rt; largest_sums, least_sums);
    Ok(())
}

/// These words end a run with a wrong number, and nothing is written.
fn is_no_city<R: Threads + Sync + Abort>(
    rt: &R,
    alloc: Global,
    words: &[&str],
) -> Result<(), Fail> {
    ends(rt, alloc, words, [LINE, ONE, TWO], Status::Usage, b"")
}

#[test]
fn other_words_are_no_number(rt: HostRuntime) -> Result<(), Fail> {
    is_no_city(&rt, rt.alloc(), &["gen"])?;
    is_no_city(&rt, rt.alloc(), &["gen", ""])?;
    is_no_city(&rt, rt.alloc(), &["gen", "x"])?;
    is_no_city(&rt, rt.alloc(), &["gen", "7x"])?;
    is_no_city(&rt, rt.alloc(), &["gen", "-7"])?;
    is_no_city(&rt, rt.alloc(), &["gen", "+7"])?;
    is_no_city(&rt, rt.alloc(), &["gen", "7", "8"])?;
    is_no_city(&rt, rt.alloc(), &["gen", "7", "--stop=1"])?;
    is_no_city(&rt, rt.alloc(), &["gen", "18446744073709551616"])?;
    is_no_city(&rt, rt.alloc(), &["gen", "99999999999999999999999999"])
}

#[test]
fn the_room_for_a_summary_may_end(rt: HostRuntime) -> Result<(), Fail> {
    let mut shelf = shelf_of(rt.alloc(), [LINE, ONE, TWO])?;
    let mut sink = MemorySink::new(rt.alloc(), 10)?;
    let ended = status_of(&rt, rt.alloc(), &["gen", "7"], &mut shelf, &mut sink)?;
    assert_eq!(&rt; ended, Status::WriteFault);
    assert_eq!(&rt; sink.taken(), b"city 7\nnod".as_slice());
    Ok(())
}

#[test]
fn a_summary_may_not_be_taken(rt: HostRuntime) -> Result<(), Fail> {
    let mut shelf = shelf_of(rt.alloc(), [LINE, ONE, TWO])?;
    let mut sink = MemorySink::new(rt.alloc(), 1000)?;
    sink.fail(rt.alloc(), 1)?;
    let ended = status_of(&rt, rt.alloc(), &["gen", "7"], &mut shelf, &mut sink)?;
    assert_eq!(&rt; ended, Status::WriteFault);
    assert_eq!(&rt; sink.taken(), b"".as_slice());
    Ok(())
}
