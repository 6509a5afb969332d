//! Waits that fail by a list.
use live_trait::{Failed, Gate, ListPoller, OpenGate, Point, Poller};
use std::test::Fail;

/// What a wait of any poller comes to, with a gate passed before and after it.
fn wait_between<P: Poller, G: Gate>(poller: &mut P, gate: &G) -> Result<(), Failed> {
    gate.at(Point::Firmware);
    let waited = poller.wait();
    gate.at(Point::Link);
    waited
}

#[test]
fn waits_fail_exactly_where_they_are_listed(rt: HostRuntime) -> Result<(), Fail> {
    let mut failing = Vec::new(rt.alloc());
    failing.push(2)?;
    failing.push(4)?;
    let mut poller = ListPoller::new(failing);
    for fails in [false, true, false, true, false] {
        let want = if fails { Err(Failed) } else { Ok(()) };
        assert_eq!(rt; wait_between(&mut poller, &OpenGate), want);
    }
    Ok(())
}
