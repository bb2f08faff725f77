//! What an actor finds in its port when it may begin a turn.

/// What an actor finds when it looks into its port.
#[derive(Clone, Copy, PartialEq, Eq, Debug)]
pub enum Found {
    /// It has stopped, or no item waits that its state doesn't save.
    Nothing,
    /// It is at START, which waits for nothing.
    Start,
    /// The first item that isn't saved is this input of its state, counted in text order.
    Input(usize),
    /// The first item that isn't saved is no input of its state.
    Ignored,
}
