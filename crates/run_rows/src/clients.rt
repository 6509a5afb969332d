//! A client of the echo server is served in a live run, also where no second thread can be started.
ghost use Rattle.std.specs.Prelude.{IfOk};
ghost use Rattle.link_script.specs.Links.{played_of};
ghost use Rattle.link_script.specs.Play.{shown};
ghost use Rattle.link_trait.specs.Shown.{IsFresh};

use avr_mcu::Mcu;
use avr_run::RunEnd as FirmwareEnd;
use board_echo::{echo_image, echo_peer};
use board_file::board;
use board_run::firmware::{Cut, Firmware};
use board_run::live::live;
use board_run::threads::Ran;
use board_run::wire::Wire;
use board_sim::end::RunEnd;
use chip_core::Chip;
use chip_hist::History;
use chip_lock::turn::Turn;
use chip_shared::shared::Shared;
use link_script::ScriptLinks;
use live_trait::{ListPoller, OpenGate};
use std::alloc::{AllocError, Global};
use std::test::Fail;
use wz_base::MemSink;

/// Links with a client of the echo server.
fn client_links(alloc: Global) -> Result<ScriptLinks, AllocError>
    ensures { IfOk result (λ links. IsFresh (shown (played_of links))) }
{
    let mut peers = Vec::new(alloc);
    peers.push(echo_peer(alloc, 0)?)?;
    ScriptLinks::new(alloc, peers)
}

/// Whether the client was given just what it says.
fn is_echoed(alloc: Global, links: &ScriptLinks) -> Result<bool, Fail> {
    let client = echo_peer(alloc, 0)?;
    let said = client.say.first().ok_or("nothing said")?;
    let peer = links.peer(0).ok_or("no peer")?;
    Ok(peer.given == said.bytes.as_slice())
}

#[test]
fn client_gets_back_what_it_says(rt: HostRuntime) -> Result<(), Fail> {
    let alloc = rt.alloc();
    let mut sink = MemSink::new(alloc, 1000, Vec::new(alloc))?;
    let left = live(
        &rt,
        alloc,
        echo_image(alloc)?,
        board(alloc, b"")?,
        &mut sink,
        client_links(alloc)?,
        ListPoller::new(Vec::new(alloc)),
        &OpenGate,
    );
    assert_eq!(rt; left.end, RunEnd::Break);
    assert!(rt; is_echoed(alloc, &left.links)?);
    Ok(())
}

#[test]
fn client_is_served_where_no_thread_can_be_started(rt: HostRuntime) -> Result<(), Fail> {
    let alloc = rt.alloc();
    let chip = Chip::new(alloc, 0, 0)?;
    let shared = Shared::new(chip, History::new(alloc, 1_000_000), client_links(alloc)?);
    let mcu = Mcu::new(alloc, echo_image(alloc)?)?;
    let mut sink = MemSink::new(alloc, 1000, Vec::new(alloc))?;
    let Ok((turn, first, mut links)) = Turn::start(alloc, shared) else {
        return Err(Fail::new("memory"));
    };
    let firmware = Firmware {
        mcu,
        wire: Wire::new(&rt, &turn, &OpenGate, first),
        cycles: 1_000_000,
        last: None,
    };
    let Ran { pass, cut, .. } = firmware.run_alone(&mut links, &mut sink);
    assert_eq!(rt; cut, Cut::Step(FirmwareEnd::Break));
    let (_, _, script) = turn.close(pass, links).into_parts();
    assert!(rt; is_echoed(alloc, &script)?);
    Ok(())
}
