//! The receiver before a console, worked by hand from this board's rule of arrival times.
use avr_console::Console;
use std::process::Abort;
use std::test::Fail;

// One call, with what comes of it. The last number of `Enable` is the cycle count.
#[derive(Clone, Copy)]
enum Step {
    Enable(bool, u32, u64),
    Pass(u64, u64),
    Ready(bool),
    Take(Option<u8>),
    Next(u64),
}

fn take_step(rt: &impl Abort, console: &mut Console, place: usize, step: Step) {
    match step {
        Step::Enable(on, frame, at) => console.enable(on, frame, at),
        Step::Pass(from, to) => {
            if from <= to {
                console.pass(from, to);
            }
        }
        Step::Ready(want) => assert_eq!(rt; console.ready(), want, "step {place}"),
        Step::Take(want) => assert_eq!(rt; console.take(), want, "step {place}"),
        Step::Next(want) => assert_eq!(rt; console.next_event(), want, "step {place}"),
    }
}

// Five bytes. The first two arrive by frames of 160 cycles from 100 on, and no third one while both wait; a reading at 1,000 lets
// the next frame begin, of the time that holds then; what waits stays while the receiver is off, and the frame on the way is sent
// anew.
const STEPS: [Step; 24] = [
    Step::Ready(false),
    Step::Take(None),
    Step::Next(u64::MAX),
    Step::Enable(true, 160, 100),
    Step::Next(260),
    Step::Pass(100, 259),
    Step::Ready(false),
    Step::Pass(259, 260),
    Step::Ready(true),
    Step::Next(420),
    Step::Pass(260, 1000),
    Step::Next(u64::MAX),
    Step::Enable(true, 80, 1000),
    Step::Next(u64::MAX),
    Step::Take(Some(0x48)),
    Step::Next(1080),
    Step::Enable(false, 80, 1040),
    Step::Pass(1000, 2000),
    Step::Take(Some(0x69)),
    Step::Take(None),
    Step::Enable(true, 80, 2000),
    Step::Enable(true, 40, 2010),
    Step::Pass(2000, 2119),
    Step::Next(2120),
];

#[test]
fn bytes_arrive_a_frame_time_apart(rt: HostRuntime) -> Result<(), Fail> {
    let bytes = vec![in rt.alloc(); 0x48, 0x69, 0x21, 0x0D, 0x0A]?;
    let mut console = Console::new(bytes);
    for (place, step) in STEPS.iter().enumerate() {
        take_step(&rt, &mut console, place, *step);
    }
    assert_eq!(rt; console.take(), Some(0x21), "the third byte");
    console.pass(2119, 2200);
    assert_eq!(rt; console.take(), Some(0x0D), "the fourth byte");
    assert_eq!(rt; console.take(), Some(0x0A), "the last byte");
    assert_eq!(rt; console.next_event(), u64::MAX, "nothing is left");
    Ok(())
}
