ghost use Rattle.std.specs.Prelude.{◌≡◌, ◌++◌, ◌∷◌, [], OnOk};
ghost use Rattle.road_graph.specs.Paths.{length_of};
ghost use Rattle.journal_text.specs.Groups.{numbers_line, walk_lines};

use crate::line::{push_line, push_walk};
use ride_base::NoMemory;
use road_graph::Walk;

/// Adds the lines of a walk that was asked for: `d` with its length, and its nodes as those of leg 0.
pub fn render_way(walk: &Walk, out: &mut Vec<u8>) -> Result<(), NoMemory>
    ensures { OnOk result (out.new.items ≡ out.old.items
        ++ numbers_line 100 (length_of walk.now ∷ []) ++ walk_lines 0 walk.now.nodes) }
{
    push_line(out, b'd', &[walk.length()])?;
    push_walk(out, 0, walk.nodes())
}
