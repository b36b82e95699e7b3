// `set_delay`, `try_open`, `watch` and the clearing of an input: their rules and laws (document 01, "Supervision"), and what the world shows.
// No code: the code that is proved equal to them stands in inputs_set_delay, inputs_try_open, inputs_watch and inputs_clear.
#![tactic(auto)]

// What the world shows of an input's flow when it is to be opened.
#[derive(Clone, Copy)]
pub struct World {
    pub inode: Option<u64>,
    // Whether an instance can be made.
    pub made: bool,
    pub reader: Option<u32>,
    pub head: u64,
}
