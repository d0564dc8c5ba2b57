use super::names::{Declared, KnownSignal, Routine};
use four_state::List;

/// What the file declares, as all bodies see it.
#[derive(Drop)]
pub struct Outline {
    /// The parent of each class, by its number.
    pub classes: List<Option<u32>>,
    /// The signals of each interface.
    pub interfaces: List<List<KnownSignal>>,
    pub tasks: List<Routine>,
    pub functions: List<Routine>,
}

/// What a body belongs to.
#[derive(Clone, Copy, PartialEq, Eq)]
pub enum Body {
    Program,
    Task,
    /// A function or `new`, which don't wait.
    Function,
}

/// What is known where a statement stands.
#[derive(Drop)]
pub struct Context {
    pub outline: Outline,
    /// The names in sight, the innermost scope first.
    pub scopes: List<List<Declared>>,
    /// How many variables of this body are in sight: the slot of the next one.
    pub slots: u32,
    pub body: Body,
    /// Whether a loop surrounds it in its own thread's part.
    pub is_in_loop: bool,
}
