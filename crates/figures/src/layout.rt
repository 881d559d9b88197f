// The words of a file's parts, in document 01's order.

// The words of a row: id, kind, committed, owned, metered, adjustment, planned, forced, maximum, minimum, online, LMP,
// first point, points.
pub type Row = [u64; 14];

// The words of a point: price, kW.
pub type Point = [u64; 2];
