/// The largest side of a picture and the largest extent of a rectangle.
pub const LIMIT: u32 = 65_535;
