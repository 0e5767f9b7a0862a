// A cut of a box: of what is in it, the first child gets what lies below the value on the axis, and the second child the rest.
#[derive(Clone, Copy, Default)]
pub struct Cut {
    pub parent: usize,
    pub axis: usize,
    pub value: i16,
}
