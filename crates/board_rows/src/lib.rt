//! Worked rows of scripts, traces, their texts, the echo server and scripted runs. Nothing stands on it.
#![tactic(auto)]

#[cfg(test)]
mod echo;
#[cfg(test)]
mod reading;
#[cfg(test)]
mod runs;
#[cfg(test)]
mod scripts;
#[cfg(test)]
mod texts;
#[cfg(test)]
mod traces;
