//! The routes between ports and addresses of the board and those of the host.
ghost use Rattle.std.specs.Prelude.{◌≡◌, [], ◌∷◌, ◌++◌, OnOk, OnErr};
ghost use Rattle.link_trait.specs.Routes.{no_routes};

use chip_sheet::event::Addr;
use std::alloc::{AllocError, Global};
use std::marker::Model;

/// Which ports and addresses of the host stand for those that the firmware names.
///
/// Contracts see it as two lists, in the order in which their entries were added.
#[derive(Drop)]
pub struct Routes {
    /// The ports that the firmware listens on, each with the host's port.
    listens: Vec<(u16, u16)>,
    /// The addresses that the firmware calls, each with the host's address.
    routes: Vec<(Addr, Addr)>,
}

impl Model for Routes {
    ghost use Rattle.std.specs.Prelude.{ℕ};
    ghost use Rattle.link_trait.specs.Routes.{RouteLists};

    ghost Value = { RouteLists };

    ghost view = { λ r. record { listens = r.listens.items; routes = r.routes.items } };

    ghost invariant = { λ r. Unit {0} };
}

impl Routes {
    /// No routes. It takes no memory.
    pub fn new(alloc: Global) -> Routes
        ensures { result ≡ no_routes }
    {
        Routes {
            listens: Vec::new(alloc),
            routes: Vec::new(alloc),
        }
    }

    /// Adds the host's port that stands for a port of the chip, each 0 to 65535.
    ///
    /// # Errors
    /// Out of memory alone. The routes stand as before.
    pub fn listen(&mut self, chip: u16, host: u16) -> Result<(), AllocError>
        ensures ok { OnOk result (self.new ≡ record self.old { listens = self.old.listens ++ (chip, host) ∷ [] }) }
        ensures err { OnErr result (self.new ≡ self.old) }
    {
        self.listens.push((chip, host))?;
        Ok(())
    }

    /// Adds the address `to` of the host that stands for the address `from`, which the firmware names.
    ///
    /// # Errors
    /// Out of memory alone. The routes stand as before.
    pub fn route(&mut self, from: Addr, to: Addr) -> Result<(), AllocError>
        ensures ok { OnOk result (self.new ≡ record self.old { routes = self.old.routes ++ (from, to) ∷ [] }) }
        ensures err { OnErr result (self.new ≡ self.old) }
    {
        self.routes.push((from, to))?;
        Ok(())
    }

    /// The ports, each of the chip with the host's, in the order in which they were added.
    pub fn listens(&self) -> &[(u16, u16)]
        ensures { result.now ≡ self.now.listens }
    {
        &self.listens
    }

    /// The addresses, each of the firmware with the host's, in the order in which they were added.
    pub fn routes(&self) -> &[(Addr, Addr)]
        ensures { result.now ≡ self.now.routes }
    {
        &self.routes
    }
}
