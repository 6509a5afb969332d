//! What the chip says of an event that was written down.

ghost use Rattle.std.specs.Prelude.{◌≡◌, ◌∷◌, None, length};
ghost use Rattle.chip_sheet.specs.Past.{Past, entry_of};
ghost use Rattle.chip_sheet.specs.Streams.{Starts};
ghost use Rattle.chip_core.specs.Chip.{Stands, Few, stop_kept};
ghost use Rattle.board_judge.specs.Judged.{answer_byte, compared, breach};
ghost use Rattle.board_judge.specs.Run.{IsOfChip};

use crate::end::JudgeFault;
use chip_core::Chip;
use chip_core::laws::{fits_agrees, rest_stands};
use chip_sheet::event::{BusAnswer, Event};

// An answer as a byte: a level of the interrupt line is 0 or 1.
fn answer_byte(answer: BusAnswer) -> u8
    ensures { result ≡ answer_byte answer }
{
    match answer {
        BusAnswer::Done => 0,
        BusAnswer::Out(byte) => byte,
        BusAnswer::Level(high) => u8::from(high),
    }
}

// What is wrong with the answer at a place, if it is not the chip's.
fn compared(place: u64, expected: BusAnswer, found: BusAnswer) -> Option<JudgeFault>
    ensures { result ≡ compared place expected found }
{
    if expected == found {
        None
    } else {
        Some(JudgeFault::Differs {
            place,
            expected: answer_byte(expected),
            found: answer_byte(found),
        })
    }
}

/// What is wrong with an event at a place, if it breaks the datasheet; else the chip takes it.
pub fn fault_of(chip: &mut Chip, place: u64, event: Event<'_>) -> Option<JudgeFault>
    requires running { stop_kept chip.old ≡ None }
    requires few { Few chip.old }
    requires chip { IsOfChip (entry_of event) }
    ensures is { (starts : Starts) (past : Past) → Stands starts chip.old past → length past ≡ place → result ≡ breach starts past (entry_of event.entry) }
    ensures goes_on { result ≡ None → (starts : Starts) (past : Past) → Stands starts chip.old past → Stands starts chip.new (entry_of event.entry ∷ past) × (stop_kept chip.new ≡ None) }
{
    match event {
        Event::Bus(asked, found) => match chip.bus(asked) {
            Ok(expected) => compared(place, expected, found),
            Err(stop) => Some(JudgeFault::Stops { place, stop }),
        },
        Event::Link(sn, what) => {
            fits_agrees();
            if !chip.fits(sn, &what) {
                return Some(JudgeFault::Unfit { place });
            }
            chip.link(sn, &what);
            None
        }
        Event::Rest => {
            rest_stands();
            None
        }
    }
}
