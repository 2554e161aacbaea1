ghost use Rattle.std.specs.Prelude.{◌≡◌, List};
ghost use Rattle.road_graph.specs.declared.road.Road.{Road};

use crate::road::Road;
use std::marker::Model;

/// A list of roads that takes no bytes: only contracts see it.
///
/// Nothing in memory holds the list. It is the one that `of` was handed because `of`, which is proved by hand, is all
/// that makes it: no other proof by hand may touch it.
#[derive(Drop)]
pub(crate) struct RoadList {
    ghost roads: { List Road },
}

impl Model for RoadList {
    ghost use base.Fml.{ftrue};

    ghost also_owns = { λ _. ftrue };
}

// It owns nothing, so threads may share it and hand it on.
unsafe impl Send for RoadList {}

unsafe impl Sync for RoadList {}

impl RoadList {
    /// The roads of a slice, which are not copied.
    pub(crate) fn of(roads: &[Road]) -> RoadList
        ensures { result.roads ≡ roads.now }
    {
        RoadList {}
    }
}
