ghost use Rattle.road_graph.specs.WalkLaws.{HoldsOfGraphs, WalksShorten, SimpleWalksAreFew, SimpleWalksAreShort, DistancesAreShort, DistancesAreOne, DistancesAreSimple, WalksHaveDistances, IsTriangular, PartsAreLeast, PlacesAreLeast};

/// What is so of the walks and distances of every graph. The call does nothing: its contract is the law.
pub fn laws_of_walks()
    ensures shorten { HoldsOfGraphs WalksShorten }
    ensures simple_few { HoldsOfGraphs SimpleWalksAreFew }
    ensures simple_short { HoldsOfGraphs SimpleWalksAreShort }
    ensures short { HoldsOfGraphs DistancesAreShort }
    ensures one { HoldsOfGraphs DistancesAreOne }
    ensures distances { HoldsOfGraphs WalksHaveDistances }
    ensures simple { HoldsOfGraphs DistancesAreSimple }
    ensures triangle { HoldsOfGraphs IsTriangular }
    ensures parts { HoldsOfGraphs PartsAreLeast }
    ensures places { HoldsOfGraphs PlacesAreLeast }
{}
