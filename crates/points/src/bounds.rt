use crate::position::Position;

// The least and the greatest number that some points have on each axis. Not one generic type with the range of a value: they share no method.
#[derive(Clone, Copy, Default)]
pub struct Bounds {
    pub least: Position,
    pub greatest: Position,
}
