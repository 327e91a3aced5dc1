//! Tests of rigs and sources over real files and readers.
#![tactic(auto)]

#[cfg(test)]
mod calls;
#[cfg(test)]
mod files;
