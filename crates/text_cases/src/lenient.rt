ghost use Rattle.std.specs.Prelude.{◌≡◌};

use dimacs_reader::read_graph;
use ride_base::{MemoryShelf, Shelf};
use road_graph::{Graph, NodeNo, Steps};
use std::test::Fail;

/// Whether there are the roads from 1 to 2 of 7 and 9, in this order, and one of 0 back.
fn has_roads(graph: &Graph, steps: &mut Steps<()>) -> bool
    requires { graph.now.nodes ≡ 2 }
{
    let (one, two) = (NodeNo(1), NodeNo(2));
    let least = (graph.joined(one, two, steps), graph.joined(two, one, steps));
    if graph.out_count(one) != 2 {
        return false;
    }
    let first = graph.out_road(one, 0, steps);
    let second = graph.out_road(one, 1, steps);
    least == (Some(7), Some(0)) && first == (two, 7) && second == (two, 9)
}

#[test]
fn roads_are_kept(rt: HostRuntime) -> Result<(), Fail> {
    let text = b"c x\n\np  sp 2 3\r\na 1 2 7\nc mid\na 1 2 9\na 2 1 0";
    let mut shelf = MemoryShelf::new(rt.alloc());
    shelf.put(rt.alloc(), "text", text)?;
    shelf.begin("text")?;
    let mut steps = Steps::start(&rt, ());
    let graph = read_graph(rt.alloc(), &mut shelf)?;
    assert_eq!(rt; graph.nodes(), 2);
    assert!(rt; has_roads(&graph, &mut steps));
    Ok(())
}
