//! An order that ends a run.
ghost use Rattle.std.specs.Prelude.{◌≡◌, true, string_bytes};
ghost use Rattle.line_filter.specs.Says.{is_end_order};

/// An order that ends the run.
#[derive(Drop)]
pub(crate) struct End {
    /// The number of orders before it.
    pub place: u64,
    /// The millisecond until which lines given together with it make it wait.
    pub since: u64,
    /// Its words.
    pub text: String,
    /// Whether it was returned ahead of its turn.
    pub given: bool,
    pub ghost ends_it: { is_end_order (string_bytes text) ≡ true },
}
