//! Laws of the definitions, each the contract of a function that does nothing.
ghost use Rattle.avr_eeprom.specs.Laws.{CellsAreWrites, ReadsLastWrite};

/// After any operations since reset each cell holds the byte of the last complete write of it, else FF.
pub fn cells_are_writes()
    ensures { CellsAreWrites }
{}

/// A reading by EERE gives the byte of the last complete write of the cell, else FF.
pub fn reads_last_write()
    ensures { ReadsLastWrite }
{}
