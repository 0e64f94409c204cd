// What a match does with a value: guards that are asked, the arm that is taken, and what the names hold.
use match_model::Mode;
use tree_eval::Value;

/// A name with what it is bound to, and how (Rust Reference, Binding modes).
#[derive(Debug, Drop)]
pub struct Held {
    pub name: String,
    pub mode: Mode,
    pub value: Value,
}

/// An arm by its number from 0, and what its names are bound to, ascending by name.
#[derive(Debug, Drop)]
pub struct HeldArm {
    pub arm: u32,
    pub held: Vec<Held>,
}

/// How a match ends: an arm is taken, none is, or an answer of a guard is missing.
#[derive(Debug, Drop)]
pub enum Ending {
    Took(HeldArm),
    Missed,
    Short,
}

/// The guards that got an answer, in order, and how the match ends.
#[derive(Debug, Drop)]
pub struct Selection {
    pub asked: Vec<HeldArm>,
    pub ending: Ending,
}
