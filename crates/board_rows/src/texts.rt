//! Rows of printed texts.

use avr_core::AvrStop;
use avr_sheet::DeviceStop;
use board_bus::{BusAnswer, BusEvent};
use board_text::answers::{end_line, push_answer};
use board_text::entries::{push_entry_line, trace_head};
use board_text::firmware::firmware_text;
use board_text::stops::stop_line;
use chip_sheet::event::{Addr, Event, LinkWhat};
use chip_sheet::stop::ChipStop;
use std::test::Fail;

#[test]
fn writes_lines_of_answers(rt: HostRuntime) -> Result<(), Fail> {
    for (answers, shown) in [
        ([BusAnswer::Done, BusAnswer::Done, BusAnswer::Done], ""),
        (
            [BusAnswer::Done, BusAnswer::Out(0x0A), BusAnswer::Done],
            "0A\n",
        ),
        (
            [
                BusAnswer::Out(0xF0),
                BusAnswer::Level(true),
                BusAnswer::Level(false),
            ],
            "F0 1 0\n",
        ),
    ] {
        let mut line = Vec::new(rt.alloc());
        for answer in &answers {
            push_answer(&mut line, *answer)?;
        }
        end_line(&mut line)?;
        assert_eq!(rt; line.as_slice(), shown.as_bytes());
    }
    Ok(())
}

#[test]
fn writes_stops(rt: HostRuntime) -> Result<(), Fail> {
    for (stop, shown) in [
        (
            ChipStop::ReservedBlock { block: 28 },
            "stop ReservedBlock 28\n",
        ),
        (ChipStop::Pppoe, "stop Pppoe\n"),
        (
            ChipStop::OverwriteInFlight { sn: 0, at: 2047 },
            "stop OverwriteInFlight 0 2047\n",
        ),
        (
            ChipStop::SendTooLong {
                sn: 0,
                len: 2049,
                free: 2048,
            },
            "stop SendTooLong 0 2049 2048\n",
        ),
        (
            ChipStop::RecvPastEnd {
                sn: 7,
                asked: 1,
                there: 0,
            },
            "stop RecvPastEnd 7 1 0\n",
        ),
    ] {
        let line = stop_line(rt.alloc(), stop)?;
        assert_eq!(rt; line.as_str(), shown);
    }
    Ok(())
}

fn device(stop: DeviceStop) -> AvrStop {
    AvrStop::Device { pc: 12, stop }
}

#[test]
fn writes_stops_of_the_firmware(rt: HostRuntime) -> Result<(), Fail> {
    for (stop, shown) in [
        (
            AvrStop::Illegal {
                pc: 3,
                word: 65_535,
            },
            "Illegal 3 65535",
        ),
        (
            AvrStop::Undefined {
                pc: 4,
                word: 37_389,
            },
            "Undefined 4 37389",
        ),
        (
            AvrStop::BadAddress { pc: 5, addr: 2_304 },
            "BadAddress 5 2304",
        ),
        (AvrStop::StackOut { pc: 6, sp: 255 }, "StackOut 6 255"),
        (AvrStop::SelfProgram { pc: 7 }, "SelfProgram 7"),
        (device(DeviceStop::Adc), "Device 12 Adc"),
        (device(DeviceStop::Twi), "Device 12 Twi"),
        (device(DeviceStop::Watchdog), "Device 12 Watchdog"),
        (device(DeviceStop::Eeprom), "Device 12 Eeprom"),
        (
            device(DeviceStop::ExternalClock { timer: 1 }),
            "Device 12 ExternalClock 1",
        ),
        (
            device(DeviceStop::TimerMode { timer: 0, mode: 4 }),
            "Device 12 TimerMode 0 4",
        ),
        (
            device(DeviceStop::WaveformPin { timer: 2 }),
            "Device 12 WaveformPin 2",
        ),
        (
            device(DeviceStop::SpiMode { spcr: 84 }),
            "Device 12 SpiMode 84",
        ),
        (
            device(DeviceStop::UsartMode { ucsr0c: 14 }),
            "Device 12 UsartMode 14",
        ),
    ] {
        let text = firmware_text(rt.alloc(), stop)?;
        assert_eq!(rt; text.as_str(), shown);
    }
    Ok(())
}

#[test]
fn writes_traces(rt: HostRuntime) -> Result<(), Fail> {
    let from = Addr {
        ip: [10, 0, 0, 255],
        port: 40_000,
    };
    let mut text = Vec::new(rt.alloc());
    text.extend_from_slice(trace_head(rt.alloc(), 0, 65_535)?.as_bytes())?;
    for event in [
        Event::Bus(BusEvent::Select(true), BusAnswer::Done),
        Event::Bus(BusEvent::Byte(0x0A), BusAnswer::Out(0xF9)),
        Event::Bus(BusEvent::Look, BusAnswer::Level(true)),
        Event::Bus(BusEvent::Look, BusAnswer::Level(false)),
        Event::Bus(BusEvent::Select(false), BusAnswer::Done),
        Event::Link(0, LinkWhat::Linked),
        Event::Link(1, LinkWhat::Accepted(from)),
        Event::Link(2, LinkWhat::Refused),
        Event::Link(3, LinkWhat::TimedOut),
        Event::Link(4, LinkWhat::Took(4_294_967_295)),
        Event::Link(5, LinkWhat::Got(&[0x00, 0xAB])),
        Event::Link(6, LinkWhat::Datagram(from, &[0xC1])),
        Event::Link(6, LinkWhat::Datagram(from, &[])),
        Event::Link(7, LinkWhat::Ended),
        Event::Link(7, LinkWhat::Shut),
        Event::Link(7, LinkWhat::Failed),
        Event::Link(7, LinkWhat::Dropped),
        Event::Rest,
    ] {
        push_entry_line(&mut text, event)?;
    }
    let shown =
        "w5500 trace 1 0 65535\nL\n0A>F9\n?1\n?0\nH\n@0:linked\n@1:accepted:10.0.0.255:40000\n\
                 @2:refused\n@3:timedout\n@4:took:4294967295\n@5:got:00AB\n\
                 @6:datagram:10.0.0.255:40000:C1\n@6:datagram:10.0.0.255:40000:\n\
                 @7:ended\n@7:shut\n@7:failed\n@7:dropped\n.\n";
    assert_eq!(rt; text.as_slice(), shown.as_bytes());
    Ok(())
}
