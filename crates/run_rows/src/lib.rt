//! Worked rows of live runs over links in memory, on two threads and on one. Nothing stands on it.
#![tactic(auto)]

#[cfg(test)]
mod beside;
#[cfg(test)]
mod clients;
#[cfg(test)]
mod ends;
