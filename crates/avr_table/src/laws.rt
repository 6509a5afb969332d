//! Laws of the instruction table.
ghost use Rattle.avr_table.specs.Decoded.{OnlyOneRow, SaysItsRow, IllegalFitsNone};
ghost use Rattle.avr_table.specs.Rows.{rows};

/// What the instruction table keeps, as laws; the call does nothing. No word fits two rows, a word that fits
/// a row says this row's instruction unless it is undefined, and a word is illegal exactly where it fits none.
pub fn instruction_table()
    ensures one_row { OnlyOneRow rows }
    ensures row { SaysItsRow rows }
    ensures illegal { IllegalFitsNone rows }
{}
