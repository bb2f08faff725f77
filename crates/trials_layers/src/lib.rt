//! Tests of the lower layers through their public calls: units and lines, orders for a line, stores and one side of a
//! link, ports, timers, tokens, unset paths and code; valid sets and turns, on sets written as plain data. They are in
//! a crate of their own, so that the layers aren't proved again with them, and in one crate, so that these are loaded
//! and compiled once.
#![tactic(auto)]

#[cfg(test)]
mod drafts;
#[cfg(test)]
mod of_code;
#[cfg(test)]
mod of_lines;
#[cfg(test)]
mod of_odds;
#[cfg(test)]
mod of_orders;
#[cfg(test)]
mod of_paths;
#[cfg(test)]
mod of_ports;
#[cfg(test)]
mod of_rules;
#[cfg(test)]
mod of_sets;
#[cfg(test)]
mod of_sides;
#[cfg(test)]
mod of_starts;
#[cfg(test)]
mod of_stores;
#[cfg(test)]
mod of_tokens;
#[cfg(test)]
mod of_turns;
#[cfg(test)]
mod of_units;
#[cfg(test)]
mod of_wheels;
#[cfg(test)]
mod plans;
