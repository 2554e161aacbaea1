use dispatch_top::Status;
use std::alloc::Global;
use std::process::Abort;
use std::test::Fail;

/// Compares what is told of a status.
fn tells<R: Abort>(rt: &R, alloc: Global, status: Status, line: &str) -> Result<(), Fail> {
    assert_eq!(rt; format!(in alloc; "{status}")?.as_str(), line);
    Ok(())
}

#[test]
fn each_status_has_its_line(rt: HostRuntime) -> Result<(), Fail> {
    let alloc = rt.alloc();
    tells(&rt, alloc, Status::Done, "")?;
    tells(&rt, alloc, Status::NotYet, "not yet")?;
    tells(&rt, alloc, Status::Usage, "usage")?;
    tells(&rt, alloc, Status::GraphText { line: 1 }, "graph line 1")?;
    tells(&rt, alloc, Status::FleetText { row: 0 }, "fleet row 0")?;
    tells(
        &rt,
        alloc,
        Status::StreamText { line: 1073741825 },
        "stream line 1073741825",
    )?;
    tells(&rt, alloc, Status::ReadFault, "read fault")?;
    tells(&rt, alloc, Status::WriteFault, "write fault")?;
    tells(&rt, alloc, Status::NoMemory, "no memory")
}
