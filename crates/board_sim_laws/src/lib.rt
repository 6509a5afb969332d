//! Laws of the schedule of scripted runs, each the contract of a function that does nothing.
#![tactic(auto)]

ghost use Rattle.board_sim_laws.specs.Grows.{ClosingAdds, RunAdds, SweepAdds, TurnAdds};
ghost use Rattle.board_sim_laws.specs.Way.{WayLeads};

/// A run only adds to its history: so does each of its steps, each sweep, closing, and what is left of a run.
pub fn history_grows()
    ensures turn { TurnAdds }
    ensures sweep { SweepAdds }
    ensures closing { ClosingAdds }
    ensures run { RunAdds }
{}

/// Where a run stands between two steps, its history and what it printed begin those of the whole run, and so they do after the
/// next step.
pub fn way_leads()
    ensures { WayLeads }
{}
