use picture::Fault;

/// The smallest and the largest of some samples.
#[derive(Clone, Copy, PartialEq, Eq, Debug)]
pub struct Range {
    pub smallest: u16,
    pub largest: u16,
}

/// What the places of a picture are, by number.
// A field for each cause: an array by its number would be no plainer, since whoever reads a count names the cause.
#[derive(Clone, Copy, PartialEq, Eq, Debug, Default)]
pub struct Survey {
    /// The places that are pixels.
    pub pixels: u64,
    /// The range of their samples; none while there is no pixel.
    pub range: Option<Range>,
    /// The holes for which a byte is missing.
    pub missing: u64,
    /// The holes for which a byte could not be read.
    pub unread: u64,
    /// The holes for which a sample is above maxval.
    pub above: u64,
    /// The holes for which the number in the place is no pixel.
    pub no_pixel: u64,
    /// The fault of the first hole in reading order.
    pub first: Option<Fault>,
}
