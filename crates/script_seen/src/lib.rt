//! Views of a script's run beside its output: an echo of its lines, and a trace of its events.
#![tactic(auto)]

mod books;
mod changeovers;
mod events;
mod fronts;
mod groups;
mod pushing;
mod terminals;
mod timing;
mod traced_books;
mod traced_groups;
mod traced_terminals;
mod tracing;
mod turns;
mod watched_books;
mod watched_terminals;
mod watching;

pub use books::show_book;
pub use events::{same_trigger, trigger_of};
pub use fronts::front_of;
pub use groups::show_group;
pub use input_port::Item;
pub use pushing::{
    meant, push_actor, push_end, push_number, push_party, push_process, push_signal, push_state,
    push_timer, push_trigger, shown,
};
pub use script_ends::{
    GroupPlayer, TermPlayer, asks_told, line_of_unit, new_player, open_group, play_group,
    play_terminal, refuse_set,
};
pub use terminals::show_terminal;
pub use timing::delay_of;
pub use traced_books::trace_book;
pub use traced_groups::{clock_of, trace_group};
pub use traced_terminals::{open_tracer, trace_terminal};
pub use tracing::Tracer;
pub use turn_machine::Job;
pub use turns::{Ended, is_dull, loss_at, stays_in};
pub use watched_books::watch_book;
pub use watched_terminals::watch_terminal;
pub use watching::Watcher;
