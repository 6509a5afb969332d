//! How a board is set up.
use link_script::Peer;
use link_trait::Routes;
use std::marker::Model;

/// How a board is set up. Contracts see its lists.
#[derive(Drop)]
pub struct Board {
    /// Where the positions of the sent bytes start.
    pub tx_start: u16,
    /// Where the positions of the received bytes start.
    pub rx_start: u16,
    /// How much the history of the run may weigh, 1 to 67108864.
    pub events: u64,
    /// How many cycles the run may take, 1 to 1099511627776.
    pub cycles: u64,
    /// The ports and addresses of a live run, at most 64 each.
    pub routes: Routes,
    /// The peers of a scripted run, at most 64.
    pub peers: Vec<Peer>,
}

impl Model for Board {
    ghost use Rattle.board_file.specs.Boards.{Setup};

    ghost Value = { Setup };

    ghost view = { λ board. record { tx_start = board.tx_start; rx_start = board.rx_start; events = board.events; cycles = board.cycles; routes = board.routes; peers = board.peers.items } };
}
