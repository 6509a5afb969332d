//! Worked rows of scripted peers, call by call, each against what its script says. Nothing stands on it.
#![tactic(auto)]

#[cfg(test)]
mod peers;
