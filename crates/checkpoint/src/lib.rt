// The copier is definitions here; of code there is what the state question answers.
#![tactic(auto)]

// What the state question answers.
#[derive(Clone, Copy)]
pub struct Status {
    pub state: u8,
    pub locked: u16,
    pub steps: u32,
}
