// The smallest box of a point.
ghost use Rattle.std.specs.Prelude.{◌≡◌, true};
ghost use Rattle.boxes.specs.Regions.{holds, Smallest};
ghost use Rattle.boxes.specs.Standing.{cuts_of};

use crate::at::BoxAt;
use crate::table::BoxTable;
use points::point::Point;
use points::record::Record;

impl<'t, 'a, R: Record> BoxAt<'t, 'a, R> {
    // The smallest box of a point that lies in this one.
    fn descend<P: Point>(self, point: &P) -> usize
        ensures { holds (cuts_of self.entry.table.now) self.entry.number (P.Point.place point.now) ≡ true → Smallest (cuts_of self.entry.table.now) (P.Point.place point.now) result }
    {
        // no `map_or`: a closure cannot call the function that it stands in
        let Some(split) = self.split() else {
            return self.number;
        };
        let cut = split.cut;
        if point.axis(cut.axis) < cut.value {
            split.first.descend(point)
        } else {
            split.second.descend(point)
        }
    }
}

impl<'a, R: Record> BoxTable<'a, R> {
    // The smallest box that has the point: it is not cut. A point has exactly one.
    pub fn smallest<P: Point>(&self, point: &P) -> usize
        ensures { Smallest (cuts_of self.now) (P.Point.place point.now) result }
    {
        self.root().descend(point)
    }
}
