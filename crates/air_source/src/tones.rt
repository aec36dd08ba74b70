// What names a tone.

/// A tone, by its seed and its amplitude, which is from 1 to 32,768 wherever samples are asked for.
#[derive(Clone, Copy, Debug, PartialEq, Eq)]
pub struct Tone {
    /// What the number of each element begins with.
    pub seed: u32,
    /// Samples lie from its negative up to one below it.
    pub amplitude: u32,
}
