//! Which ports and addresses of the host stand for those that the firmware names.
ghost use Rattle.std.specs.Prelude.{◌≡◌};
ghost use Rattle.host_links.specs.Names.{listed_port, host_port, host_addr, named_addr, chip_addr};

use link_trait::Addr;
use std::net::{Ipv4Addr, SocketAddr};

/// The port of the host that is listed first for a port of the chip.
fn listed_port(listens: &[(u16, u16)], chip: u16) -> Option<u16>
    ensures { result ≡ listed_port listens.now chip }
{
    match listens.iter().find(|pair| pair.0 == chip) {
        Some(pair) => Some(pair.1),
        None => None,
    }
}

/// The port of the host that stands for a port of the chip: the first that is listed for it, else the same.
pub fn host_port(listens: &[(u16, u16)], chip: u16) -> u16
    ensures { result ≡ host_port listens.now chip }
{
    match listed_port(listens, chip) {
        Some(host) => host,
        None => chip,
    }
}

/// The address of the host that a route leads to from an address: the first that is listed for it.
pub fn host_addr(routes: &[(Addr, Addr)], named: Addr) -> Option<Addr>
    ensures { result ≡ host_addr routes.now named }
{
    match routes.iter().find(|pair| pair.0 == named) {
        Some(pair) => Some(pair.1),
        None => None,
    }
}

/// The first address from which a route leads to an address of the host.
fn named_addr(routes: &[(Addr, Addr)], host: Addr) -> Option<Addr>
    ensures { result ≡ named_addr routes.now host }
{
    match routes.iter().find(|pair| pair.1 == host) {
        Some(pair) => Some(pair.0),
        None => None,
    }
}

/// The address by which the firmware knows an address of the host: the first from which a route leads to it, else the same.
pub fn chip_addr(routes: &[(Addr, Addr)], host: Addr) -> Addr
    ensures { result ≡ chip_addr routes.now host }
{
    match named_addr(routes, host) {
        Some(named) => named,
        None => host,
    }
}

/// An address in the system's form.
pub fn system_addr(addr: Addr) -> SocketAddr {
    SocketAddr::from((Ipv4Addr::from(addr.ip), addr.port))
}

/// A port of 127.0.0.1 in the system's form.
pub fn own_addr(port: u16) -> SocketAddr {
    SocketAddr::from((Ipv4Addr::LOCALHOST, port))
}

/// An address of the system as the chip has it; `None` where it is none of version 4.
pub fn addr_of(addr: SocketAddr) -> Option<Addr> {
    match addr {
        SocketAddr::V4(v4) => Some(Addr {
            ip: v4.ip().octets(),
            port: v4.port(),
        }),
        SocketAddr::V6(_) => None,
    }
}
