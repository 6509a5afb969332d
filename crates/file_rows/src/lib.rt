//! Worked rows of board files: texts beside the boards that they say, or their first faults. Nothing stands on it.
#![tactic(auto)]

#[cfg(test)]
mod tests;
