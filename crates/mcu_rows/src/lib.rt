//! Worked rows of the whole microcontroller: programs with their assembler text, step by step and in runs. Nothing stands on it.
#![tactic(auto)]

#[cfg(test)]
mod runs;
#[cfg(test)]
mod steps;
