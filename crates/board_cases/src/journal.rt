ghost use Rattle.std.specs.Prelude.{◌≤◌, length};
ghost use Rattle.journal_text.specs.Printable.{IsPrintable};

#[cfg(test)]
mod tests {
    use board_core::{Advanced, CancelReason, Cancelled, Entry, Reason, Submitted};
    use insertion_cost::{Assigned, Decision, Offer};
    use journal_text::render;
    use ride_base::{Items, RequestNo, VehicleNo};
    use road_graph::{Graph, NodeNo, Road, Steps, Walk};
    use std::alloc::Global;
    use std::process::Abort;
    use std::test::Fail;
    use std::thread::Threads;
    use stop_advance::Served;
    use stop_removal::{Joins, Removal};
    use stop_schedule::{Insertion, NewWalks, Request, StopKind};

    /// A request of so many riders on seats and in wheelchair spaces from node 2 to node 4.
    fn request(riders: u32, spaces: u32) -> Request {
        Request {
            no: RequestNo(1),
            pickup: NodeNo(2),
            dropoff: NodeNo(4),
            moment: 0,
            riders,
            spaces,
        }
    }

    /// The request is answered by vehicle 1, which has no other stops, over these two walks.
    fn answer(alloc: Global, first: Walk, second: Walk) -> Entry
        ensures { IsPrintable result }
    {
        let offer = Offer {
            cost: 34,
            no: VehicleNo(1),
            place: 0,
            at: Insertion { i: 0, j: 0 },
            leave: 12,
            arrive: 32,
        };
        let mut walks = NewWalks::new(alloc);
        walks.push(first);
        walks.push(second);
        Entry::Commit(RequestNo(1), Decision::Assigned(Assigned { offer, walks }))
    }

    /// The graph of the nodes 1 to 130 in a line, 10 from one to the next.
    fn long_road(alloc: Global) -> Result<Graph, Fail> {
        let mut roads = [Road {
            from: NodeNo(1),
            to: NodeNo(2),
            weight: 10,
        }; 129];
        for (at, road) in roads.iter_mut().enumerate() {
            road.from = NodeNo(at as u32 + 1);
            road.to = NodeNo(at as u32 + 2);
        }
        Ok(Graph::build(alloc, 130, &roads)?)
    }

    /// A walk along that road.
    fn walk<R: Threads>(rt: &R, alloc: Global, nodes: &[NodeNo]) -> Result<Walk, Fail>
        requires { length nodes.now ≤ 130 }
    {
        let graph = long_road(alloc)?;
        let mut steps = Steps::start(rt, ());
        Ok(Walk::made(alloc, &graph, nodes, &mut steps)?.ok_or("a walk")?)
    }

    fn print(alloc: Global, entry: Entry, text: &mut Vec<u8>) -> Result<(), Fail>
        requires { IsPrintable entry }
    {
        Ok(render(alloc, &entry, text)?)
    }

    fn check(rt: &impl Abort, alloc: Global, entry: Entry, expected: &str) -> Result<(), Fail>
        requires { IsPrintable entry }
    {
        let mut text = Vec::new(alloc);
        print(alloc, entry, &mut text)?;
        assert_eq!(rt; text.as_slice(), expected.as_bytes());
        Ok(())
    }

    #[test]
    fn an_answer_is_printed(rt: HostRuntime) -> Result<(), Fail> {
        let first = walk(&rt, rt.alloc(), &[NodeNo(1), NodeNo(2)])?;
        let second = walk(&rt, rt.alloc(), &[NodeNo(2), NodeNo(3), NodeNo(4)])?;
        let expected = "a 1 1 0 0 34 12 32\ng 0 1 2\ng 1 2 3 4\n";
        check(&rt, rt.alloc(), answer(rt.alloc(), first, second), expected)
    }

    #[test]
    fn each_kind_of_entry_is_printed(rt: HostRuntime) -> Result<(), Fail> {
        let alloc = rt.alloc();
        let refused = Entry::Submit(request(1, 0), Submitted::Refused(Reason::Repeated));
        check(&rt, alloc, refused, "r 1 2 4 0 1\nx 1 repeated\n")?;
        check(&rt, alloc, Entry::Claim(RequestNo(7), 2), "k 7 2\n")?;
        check(&rt, alloc, Entry::Back(RequestNo(7)), "b 7\n")?;
        check(
            &rt,
            alloc,
            Entry::Commit(RequestNo(33), Decision::Nobody),
            "n 33\n",
        )?;
        let refused = Entry::Advance(3, Advanced::Back { clock: 5 });
        check(&rt, alloc, refused, "t 3\nx back 5\n")?;
        check(&rt, alloc, Entry::Shut, "z\n")?;
        let stop = Served {
            kind: StopKind::Dropoff,
            no: RequestNo(1),
            node: NodeNo(4),
            arr: 32,
            dep: 34,
        };
        let mut served = Items::new(alloc);
        served.push((VehicleNo(1), stop))?;
        let moved = Entry::Advance(32, Advanced::Moved(served));
        check(&rt, alloc, moved, "t 32\ns 1 1 d 4 32 34\n")
    }

    /// The submit of such a request.
    fn accepted(riders: u32, spaces: u32) -> Entry
        ensures { IsPrintable result }
    {
        Entry::Submit(request(riders, spaces), Submitted::Accepted)
    }

    #[test]
    fn riders_in_spaces_are_printed_behind_those_on_seats(rt: HostRuntime) -> Result<(), Fail> {
        check(&rt, rt.alloc(), accepted(0, 2), "r 1 2 4 0 0 2\n")?;
        check(&rt, rt.alloc(), accepted(1, 1), "r 1 2 4 0 1 1\n")?;
        check(&rt, rt.alloc(), accepted(1, 0), "r 1 2 4 0 1\n")
    }

    /// A cancellation that is refused.
    fn declined(reason: CancelReason) -> Entry
        ensures { IsPrintable result }
    {
        Entry::Cancel(RequestNo(1), Cancelled::Refused(reason))
    }

    #[test]
    fn refused_cancellations_are_printed(rt: HostRuntime) -> Result<(), Fail> {
        let unknown = declined(CancelReason::Unknown);
        check(&rt, rt.alloc(), unknown, "y 1\nx 1 unknown\n")?;
        let waiting = declined(CancelReason::Waiting);
        check(&rt, rt.alloc(), waiting, "y 1\nx 1 waiting\n")?;
        let nobody = declined(CancelReason::Nobody);
        check(&rt, rt.alloc(), nobody, "y 1\nx 1 nobody\n")?;
        let cancelled = declined(CancelReason::Cancelled);
        check(&rt, rt.alloc(), cancelled, "y 1\nx 1 cancelled\n")?;
        let served = declined(CancelReason::Served);
        check(&rt, rt.alloc(), served, "y 1\nx 1 served\n")
    }

    /// The first stop and the fourth are taken out, and one walk joins what was around the first.
    fn removed(alloc: Global, walk: Walk) -> Entry
        ensures { IsPrintable result }
    {
        let mut walks = Joins::new(alloc);
        walks.push(walk);
        let removal = Removal {
            no: VehicleNo(1),
            pickup: 1,
            dropoff: 4,
            walks,
        };
        Entry::Cancel(RequestNo(1), Cancelled::Removed(removal))
    }

    #[test]
    fn a_removal_is_printed(rt: HostRuntime) -> Result<(), Fail> {
        let joined = walk(&rt, rt.alloc(), &[NodeNo(1), NodeNo(2), NodeNo(3)])?;
        let expected = "y 1\no 1 1 1 4\ng 0 1 2 3\n";
        check(&rt, rt.alloc(), removed(rt.alloc(), joined), expected)
    }

    /// The stops of request 1 are all that the vehicle has.
    fn emptied(alloc: Global) -> Entry
        ensures { IsPrintable result }
    {
        let removal = Removal {
            no: VehicleNo(1),
            pickup: 1,
            dropoff: 2,
            walks: Joins::new(alloc),
        };
        Entry::Cancel(RequestNo(1), Cancelled::Removed(removal))
    }

    #[test]
    fn a_removal_without_walks_is_printed(rt: HostRuntime) -> Result<(), Fail> {
        check(&rt, rt.alloc(), emptied(rt.alloc()), "y 1\no 1 1 1 2\n")
    }

    /// The text of the answer whose first walk goes along the whole road.
    fn long_answer(alloc: Global) -> Result<Vec<u8>, Fail> {
        let mut text = Vec::from_slice(alloc, b"a 1 1 0 0 34 12 32\ng 0")?;
        for node in 1..131u32 {
            if node == 65 || node == 129 {
                text.extend_from_slice(b"\nh 0")?;
            }
            text.extend_from_slice(format!(in alloc; " {node}")?.as_bytes())?;
        }
        text.extend_from_slice(b"\ng 1 130\n")?;
        Ok(text)
    }

    /// The walk along the whole road.
    fn long_walk<R: Threads>(rt: &R, alloc: Global) -> Result<Walk, Fail> {
        let mut nodes = [NodeNo(1); 130];
        for (at, node) in nodes.iter_mut().enumerate() {
            *node = NodeNo(at as u32 + 1);
        }
        walk(rt, alloc, &nodes)
    }

    /// Adds the lines of an answer over these walks to a text.
    fn print_answer(
        alloc: Global,
        first: Walk,
        second: Walk,
        text: &mut Vec<u8>,
    ) -> Result<(), Fail> {
        print(alloc, answer(alloc, first, second), text)
    }

    #[test]
    fn a_long_walk_takes_more_lines(rt: HostRuntime) -> Result<(), Fail> {
        let first = long_walk(&rt, rt.alloc())?;
        let second = walk(&rt, rt.alloc(), &[NodeNo(130)])?;
        let mut text = Vec::new(rt.alloc());
        print_answer(rt.alloc(), first, second, &mut text)?;
        assert_eq!(rt; text.as_slice(), long_answer(rt.alloc())?.as_slice());
        Ok(())
    }
}
