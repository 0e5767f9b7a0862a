use points::bounds::Bounds;

// What some records add up to: their holds, their numbers on each axis and their squared distances from zero, each as often as it is held.
#[derive(Clone, Copy, Default)]
pub struct Tallies {
    pub weight: i64,
    pub sums: [i64; 4],
    pub squares: i64,
}

// A box: the bounds and the tallies of its records; where they stand in the order of the table; and which cut divided it.
#[derive(Clone, Copy, Default)]
pub struct BoxNode {
    pub bounds: Bounds,
    pub tallies: Tallies,
    // two numbers: a `Range` is not `Copy`
    pub from: usize,
    pub to: usize,
    pub cut: Option<usize>,
}
