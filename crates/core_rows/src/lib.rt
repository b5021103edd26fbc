//! Tests of graphs, of the core with runs whose outcome is known by hand, and of hands and the monitor.
#![tactic(auto)]

#[cfg(test)]
mod graphs;
#[cfg(test)]
mod hands;
#[cfg(test)]
mod monitors;
#[cfg(test)]
mod runs;
