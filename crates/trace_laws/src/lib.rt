//! Laws of traces, each the contract of an empty function: what is written of a history is read as that history.
#![tactic(auto)]

ghost use Rattle.trace_laws.specs.Laws.{TracesAreLegal, TracesAreRead};

/// The trace of a history that the datasheet allows is read as that history. The numbers of its entries fit the types that a
/// program has for them.
pub fn traces_are_read()
    ensures { TracesAreRead }
{}

/// The trace of a history that the datasheet allows is judged legal, with its number of entries.
pub fn traces_are_legal()
    ensures { TracesAreLegal }
{}
