//! A law of the schedule, the contract of a function that does nothing.
ghost use Rattle.board_sim.specs.FirmwareRuns.{FirmwareRuns};

/// The history of a schedule has the firmware's run in it: on the answers of its bus events the firmware asks exactly these
/// events, prints what the schedule prints, and ends as the schedule says.
pub fn firmware_runs()
    ensures { FirmwareRuns }
{}
