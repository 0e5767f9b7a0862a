use points::position::Position;

// A center that is compared with another: its number, by which ties are settled, and its position.
#[derive(Clone, Copy)]
pub struct Contender {
    pub number: u8,
    pub position: Position,
}
