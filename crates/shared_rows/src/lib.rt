//! Worked rows of the chip, its history and scripted links together: what each step answers, and what a peer was given and gave.
//! Nothing stands on it.
#![tactic(auto)]

#[cfg(test)]
mod tests;
