//! Tests of the crates of a session, one call at a time, and of whole runs over devices in memory that fail or stop.
#![tactic(auto)]

#[cfg(test)]
mod adapters;
#[cfg(test)]
mod answering;
#[cfg(test)]
mod asks;
#[cfg(test)]
mod broken;
#[cfg(test)]
mod commands;
#[cfg(test)]
mod conversions;
#[cfg(test)]
mod descriptions;
#[cfg(test)]
mod dictionaries;
#[cfg(test)]
mod entities;
#[cfg(test)]
mod exports;
#[cfg(test)]
mod loadings;
#[cfg(test)]
mod mem_storage;
#[cfg(test)]
mod pairs;
#[cfg(test)]
mod registries;
#[cfg(test)]
mod runs;
#[cfg(test)]
mod stores;
#[cfg(test)]
mod tests;
#[cfg(test)]
mod words_told;
