//! What a promise depends on.

/// What the formula of a promise depends on, of a scenario.
#[derive(Clone, Copy, Debug)]
pub struct Scene {
    /// How many nodes there are.
    pub nodes: u32,
    /// The last step.
    pub horizon: u32,
    /// The values of the constants, by node and number.
    pub given: [[u8; 16]; 8],
}
