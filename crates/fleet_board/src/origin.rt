//! Where a history begins.
use board_core::Board;
use road_graph::Graph;
use std::marker::Model;
use stop_schedule::NoIndex;

/// Where the history of a shared board begins: the board before any entry, and the graph over which its entries are lawful. It is plain data
/// for contracts alone: no value of it is made.
pub struct Origin {
    board: Board<NoIndex>,
    graph: Graph,
}

impl Model for Origin {
    ghost use Rattle.board_core.specs.BoardViews.{board_of};
    ghost use Rattle.fleet_board.specs.Openings.{Opening};

    ghost Value = { Opening };

    ghost view = { λ o. record { board = board_of o.board; graph = o.graph } };
}
