// The commands to the engine: three words each, in sending order, in a lent list.
#![tactic(auto)]

// Sending, which asks for room; the crates above use it after their checks.
pub mod inner;

#[derive(Clone, Copy)]
pub enum Command {
    SetInput { input: usize, channels: u32 },
    ClearInput { input: usize, forget: bool },
    SetDelay { input: usize, samples: u32 },
}

// A lent list, and how many of its words are in use. That there is room is a fact of two values together, so no type's invariant: each contract asks it.
#[derive(Drop)]
pub struct Commands<'a> {
    pub words: &'a mut [u32],
    pub used: usize,
}
