//! Worked rows of the outside: whole files and lines over lists of calls that fail, files of the system, gates and pollers.
//! Nothing stands on it.
#![tactic(auto)]

#[cfg(test)]
mod live;
#[cfg(test)]
mod real;
#[cfg(test)]
mod whole;
