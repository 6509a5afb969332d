//! Laws of legal histories, each the contract of an empty function.
ghost use Rattle.std.specs.Prelude.{◌↔◌};
ghost use Rattle.chip_sheet.specs.Past.{Past, GoesOn};
ghost use Rattle.chip_sheet.specs.Streams.{Starts};
ghost use Rattle.chip_sheet.specs.Legal.{Legal, LegalAtEach};

/// A history is legal exactly where each of its entries fits what came before it.
pub fn legal_at_each_place()
    ensures { (starts : Starts) (past : Past) → Legal starts past ↔ LegalAtEach starts past }
{}

/// What had happened at an earlier moment of a legal history is legal too.
pub fn legal_before()
    ensures { (starts : Starts) (older newer : Past) → GoesOn older newer → Legal starts newer → Legal starts older }
{}
