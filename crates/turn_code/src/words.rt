//! The words of a run.

/// The state of a run, in words.
#[derive(Clone, Copy)]
pub struct Words {
    /// Its operands, the bottom one first; those from `depth` on are ignored.
    pub operands: [i32; 16],
    /// The number of operands.
    pub depth: u8,
    /// Its variables.
    pub variables: [i32; 32],
    /// Which variables are set: bit v is 1 if variable v is. No instruction reads it.
    pub set: u32,
    /// The parameters of its input.
    pub params: [i32; 4],
}
