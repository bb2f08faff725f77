//! Tests that require a loaded text: of the layers that it passes, of `check`, turns, books and pools, through public
//! calls. A separate crate avoids proving the layers a second time; one crate is compiled once.
#![tactic(auto)]

mod alike;
mod inputs;
#[cfg(test)]
mod links;
#[cfg(test)]
mod of_books;
#[cfg(test)]
mod of_checks;
#[cfg(test)]
mod of_closing;
#[cfg(test)]
mod of_compile;
#[cfg(test)]
mod of_gates;
#[cfg(test)]
mod of_last_steps;
#[cfg(test)]
mod of_limits;
#[cfg(test)]
mod of_pools;
#[cfg(test)]
mod of_rebases;
#[cfg(test)]
mod of_refusals;
#[cfg(test)]
mod of_rooms;
#[cfg(test)]
mod of_rules;
#[cfg(test)]
mod of_runs;
#[cfg(test)]
mod of_slots;
#[cfg(test)]
mod of_soak;
#[cfg(test)]
mod of_steppers;
#[cfg(test)]
mod of_strangers;
#[cfg(test)]
mod of_tree;
#[cfg(test)]
mod of_workers;
mod sorted;
mod standing;
mod stepping;
mod tally;
#[cfg(test)]
mod texts;
mod wording;
