//! Workers that serve links while a client follows a seeded generator.

mod served;
mod wanderer;

pub use served::serve_all;
