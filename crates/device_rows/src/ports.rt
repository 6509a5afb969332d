//! Calls from reset on, worked by hand from the datasheet.
use avr_ports::Ports;
use std::test::Fail;

/// A call on the ports.
#[derive(Clone, Copy)]
enum Call {
    /// A write of a data address.
    Write(u16, u8),
    /// `sbi` of a bit of an I/O place.
    Set(u8, u8),
    /// `cbi` of a bit of an I/O place.
    Clear(u8, u8),
    /// The level of INTn.
    Line(bool),
    /// A vector is served.
    Serve(u8),
}

/// Calls from reset on, and what is there after them: PIND, EIFR, PCIFR and the pending vector.
#[derive(Clone, Copy)]
struct Row([Call; 5], u8, u8, u8, Option<u8>);

/// No call: a write where no register stands.
const NONE: Call = Call::Write(0x20, 0xFF);

const PINB: u16 = 0x23;

const DDRB: u16 = 0x24;

const PORTB: u16 = 0x25;

const PORTC: u16 = 0x28;

const PIND: u16 = 0x29;

const DDRD: u16 = 0x2A;

const PORTD: u16 = 0x2B;

const PCIFR: u16 = 0x3B;

const EIFR: u16 = 0x3C;

const EIMSK: u16 = 0x3D;

const PCICR: u16 = 0x68;

const EICRA: u16 = 0x69;

const PCMSK0: u16 = 0x6B;

const PCMSK1: u16 = 0x6C;

const PCMSK2: u16 = 0x6D;

const LOW: Call = Call::Line(false);

const HIGH: Call = Call::Line(true);

#[rattlefmt::skip]
const ROWS: [Row; 42] = [
    // INT0 by INTn: any change, falling, rising.
    Row([Call::Write(EICRA, 1), HIGH, NONE, NONE, NONE], 0x04, 0, 0, None),
    Row([Call::Write(EICRA, 1), LOW, NONE, NONE, NONE], 0x00, 1, 0, None),
    Row([Call::Write(EICRA, 1), LOW, Call::Write(EIFR, 1), HIGH, NONE], 0x04, 1, 0, None),
    Row([Call::Write(EICRA, 2), LOW, NONE, NONE, NONE], 0x00, 1, 0, None),
    Row([Call::Write(EICRA, 2), LOW, Call::Write(EIFR, 1), HIGH, NONE], 0x04, 0, 0, None),
    Row([Call::Write(EICRA, 3), LOW, NONE, NONE, NONE], 0x00, 0, 0, None),
    Row([Call::Write(EICRA, 3), LOW, HIGH, NONE, NONE], 0x04, 1, 0, None),
    // The low level: pending while the pin is low, whatever the flag.
    Row([Call::Write(EIMSK, 1), LOW, NONE, NONE, NONE], 0x00, 0, 0, Some(2)),
    Row([Call::Write(EIMSK, 1), LOW, Call::Serve(2), NONE, NONE], 0x00, 0, 0, Some(2)),
    Row([Call::Write(EIMSK, 1), LOW, HIGH, NONE, NONE], 0x04, 0, 0, None),
    Row([Call::Write(EICRA, 2), Call::Write(EIMSK, 1), LOW, Call::Write(EICRA, 0), HIGH], 0x04, 1, 0, None),
    Row([Call::Write(EICRA, 2), Call::Write(EIMSK, 1), LOW, Call::Write(EICRA, 0), Call::Serve(2)], 0x00, 1, 0, Some(2)),
    Row([Call::Write(EICRA, 2), LOW, Call::Write(EICRA, 0), HIGH, Call::Write(EICRA, 1)], 0x04, 1, 0, None),
    // The mask on before and after the edge; serving clears the flag.
    Row([Call::Write(EICRA, 2), Call::Write(EIMSK, 1), LOW, NONE, NONE], 0x00, 1, 0, Some(2)),
    Row([Call::Write(EICRA, 2), LOW, HIGH, Call::Write(EIMSK, 1), NONE], 0x04, 1, 0, Some(2)),
    Row([Call::Write(EICRA, 2), Call::Write(EIMSK, 1), LOW, Call::Serve(2), NONE], 0x00, 0, 0, None),
    Row([Call::Write(EICRA, 2), Call::Write(EIMSK, 1), LOW, Call::Serve(4), NONE], 0x00, 1, 0, Some(2)),
    // PD2 as an output is its PORT bit.
    Row([Call::Write(EICRA, 2), Call::Write(DDRD, 4), NONE, NONE, NONE], 0x00, 1, 0, None),
    Row([Call::Write(EICRA, 1), Call::Write(PORTD, 4), NONE, NONE, NONE], 0x04, 0, 0, None),
    Row([Call::Write(PORTD, 4), LOW, NONE, NONE, NONE], 0x00, 0, 0, None),
    Row([Call::Write(PORTD, 4), Call::Write(DDRD, 4), LOW, NONE, NONE], 0x04, 0, 0, None),
    // INT1 by PD3: PORT and toggling, as an output and as an input with a pull-up.
    Row([Call::Write(EICRA, 4), Call::Write(DDRD, 8), Call::Write(PORTD, 8), NONE, NONE], 0x0C, 2, 0, None),
    Row([Call::Write(EICRA, 8), Call::Write(PORTD, 8), NONE, NONE, NONE], 0x0C, 0, 0, None),
    Row([Call::Write(EICRA, 8), Call::Write(PORTD, 8), Call::Write(PORTD, 0), NONE, NONE], 0x04, 2, 0, None),
    Row([Call::Write(EICRA, 12), Call::Write(PIND, 8), NONE, NONE, NONE], 0x0C, 2, 0, None),
    Row([Call::Write(EICRA, 12), Call::Write(PORTD, 8), Call::Write(EIFR, 3), Call::Write(PIND, 8), NONE], 0x04, 0, 0, None),
    Row([Call::Write(EICRA, 8), Call::Set(0x09, 3), Call::Set(0x09, 3), NONE, NONE], 0x04, 2, 0, None),
    Row([Call::Write(EICRA, 4), Call::Clear(0x09, 3), NONE, NONE, NONE], 0x04, 0, 0, None),
    Row([Call::Write(EIMSK, 2), NONE, NONE, NONE, NONE], 0x04, 0, 0, Some(4)),
    Row([Call::Set(0x1D, 1), Call::Set(0x0B, 3), NONE, NONE, NONE], 0x0C, 0, 0, None),
    // Flags are cleared by writing 1, `sbi` clears its own alone, `cbi` none.
    Row([Call::Write(EICRA, 5), LOW, Call::Set(0x0B, 3), Call::Write(EIFR, 0), NONE], 0x08, 3, 0, None),
    Row([Call::Write(EICRA, 5), LOW, Call::Set(0x0B, 3), Call::Write(EIFR, 2), NONE], 0x08, 1, 0, None),
    Row([Call::Write(EICRA, 5), LOW, Call::Set(0x0B, 3), Call::Set(0x1C, 0), NONE], 0x08, 2, 0, None),
    Row([Call::Write(EICRA, 5), LOW, Call::Set(0x0B, 3), Call::Clear(0x1C, 0), NONE], 0x08, 3, 0, None),
    // Pin changes: masks before and after the change, the ports apart, and the order of vectors.
    Row([Call::Write(PCMSK2, 4), LOW, Call::Write(PCICR, 4), NONE, NONE], 0x00, 0, 4, Some(10)),
    Row([LOW, Call::Write(PCMSK2, 4), Call::Write(PCICR, 4), NONE, NONE], 0x00, 0, 0, None),
    Row([Call::Write(PCMSK2, 4), LOW, Call::Write(PCMSK2, 0), NONE, NONE], 0x00, 0, 4, None),
    Row([Call::Write(PCMSK0, 1), Call::Write(PINB, 1), Call::Write(PCICR, 7), NONE, NONE], 0x04, 0, 1, Some(6)),
    Row([Call::Write(PCMSK1, 0x80), Call::Write(PORTD, 0x80), Call::Write(PCICR, 7), NONE, NONE], 0x84, 0, 0, None),
    Row([Call::Write(PCMSK1, 0x80), Call::Write(PORTC, 0x80), Call::Write(PCICR, 7), Call::Serve(10), NONE], 0x04, 0, 2, Some(8)),
    Row([Call::Write(PCMSK1, 1), Call::Set(0x08, 0), Call::Write(PCICR, 2), Call::Serve(8), NONE], 0x04, 0, 0, None),
    Row([Call::Write(PCMSK1, 1), Call::Set(0x08, 0), Call::Write(PCICR, 2), Call::Write(PCIFR, 5), NONE], 0x04, 0, 2, Some(8)),
];

fn make(ports: &mut Ports, call: Call) {
    match call {
        Call::Write(addr, v) => ports.write(addr, v),
        Call::Set(io, bit) => ports.write_bit(io, bit % 8, true),
        Call::Clear(io, bit) => ports.write_bit(io, bit % 8, false),
        Call::Line(high) => ports.int_level(high),
        Call::Serve(vector) => ports.served(vector),
    }
}

#[test]
fn levels_flags_and_requests(rt: HostRuntime) -> Result<(), Fail> {
    for (i, row) in ROWS.iter().enumerate() {
        let mut ports = Ports::new();
        for call in row.0.iter() {
            make(&mut ports, *call);
        }
        assert_eq!(rt; ports.read(PIND), row.1, "PIND of row {i}");
        assert_eq!(rt; ports.read(EIFR), row.2, "EIFR of row {i}");
        assert_eq!(rt; ports.read(PCIFR), row.3, "PCIFR of row {i}");
        assert_eq!(rt; ports.pending(), row.4, "pending of row {i}");
    }
    Ok(())
}

#[test]
fn registers_keep_their_bits(rt: HostRuntime) -> Result<(), Fail> {
    let mut ports = Ports::default();
    let stored = [
        0x24u16, 0x25, 0x27, 0x28, 0x2A, 0x2B, 0x3D, 0x68, 0x69, 0x6B, 0x6C, 0x6D,
    ];
    for addr in stored.iter() {
        assert_eq!(rt; ports.read(*addr), 0);
        ports.write(*addr, 0xA5);
        assert_eq!(rt; ports.read(*addr), 0xA5);
        ports.write(*addr, 0);
    }
    ports.write(0x27, 0xF0);
    ports.write_bit(0x07, 0, true);
    ports.write_bit(0x07, 7, false);
    assert_eq!(rt; ports.read(0x27), 0x71);
    assert_eq!(rt; ports.read(0x26), 0x00);
    ports.write_bit(0x48, 0, true);
    assert_eq!(rt; ports.read(0x68), 0x00);
    assert_eq!(rt; ports.read(0x2C), 0x00);
    Ok(())
}

#[test]
fn selects_by_an_output_at_0(rt: HostRuntime) -> Result<(), Fail> {
    let mut ports = Ports::new();
    assert!(rt; !ports.select_low());
    ports.write_bit(0x04, 2, true);
    assert!(rt; ports.select_low());
    ports.write(PORTB, 0x04);
    assert!(rt; !ports.select_low());
    ports.write(PINB, 0x04);
    assert!(rt; ports.select_low());
    ports.write(DDRB, 0xFB);
    assert!(rt; !ports.select_low());
    Ok(())
}
