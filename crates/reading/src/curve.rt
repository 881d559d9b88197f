// A curve, read where its points stand.

ghost use Rattle.std.specs.Prelude.{◌≡◌, ◌*◌, ◌≤◌, ◌<◌, ◌^◌, length};
ghost use Rattle.std.specs.Int.Signed.{mag};
ghost use Rattle.reading.specs.Interval.{point_bytes, point_at};
ghost use Rattle.reading.specs.Values.{point_in};

use crate::rows::{Point, point_at};

// So many points, at the front of the part of a file that starts at the first of them.
#[derive(Clone, Copy)]
pub struct Curve<'a> {
    pub points: &'a [u8],
    pub count: usize,
    pub ghost in_bounds: { point_bytes * count ≤ length points.now },
}

impl Curve<'_> {
    // Point j.
    pub fn point(&self, j: usize) -> Point
        requires { j < self.now.count }
        ensures value { point_in result ≡ point_at self.now.points.now j }
        ensures price_bound { mag result.price < 2 ^ 31 }
        ensures kw_bound { result.kw < 2 ^ 32 }
    {
        point_at(self.points, j)
    }
}
