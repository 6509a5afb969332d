//! Worked rows of turns at the chip, on two threads too, and of the loop that serves the links in turns. Nothing stands on it.
#![tactic(auto)]

#[cfg(test)]
mod serving;
#[cfg(test)]
mod turns;
