ghost use Rattle.std.specs.Prelude.{◌≤◌};

use picture::Size;

/// Writes the rows of a picture's file, strip by strip. It is begun with the header and must be ended, by `finish` or by `abandon`.
pub struct RowWriter {
    pub(crate) size: Size,
    // the byte by which the format tells kinds apart: a picture of another kind is refused, so the kind is no type parameter
    pub(crate) mark: u8,
    pub(crate) next: u32,
    ghost within: { next ≤ size.height },
}
