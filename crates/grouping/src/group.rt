use points::position::Position;

// A center, and the weight and the sums of the records of its group.
#[derive(Clone, Copy, Default)]
pub struct Group {
    pub center: Position,
    pub weight: u32,
    pub sums: [i64; 4],
}
