ghost use Rattle.std.specs.Prelude.{◌≡◌};
ghost use Rattle.value.specs.Placing.{placed};

// A fault of the layer below, with the place that the layer above adds: a column, a line or a file.
#[derive(Drop)]
pub struct Placed<P, E> {
    pub place: P,
    pub fault: E,
}

// The same result, with the place put to its fault.
pub fn place_at<T, E, P: Drop>(res: Result<T, E>, place: P) -> Result<T, Placed<P, E>>
    ensures { result ≡ placed res place }
{
    res.map_err(|fault| Placed { place, fault })
}
