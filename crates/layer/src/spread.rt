/// Where one place after another of a side falls on the side below: from `first` on, each `step` further, within `count` places.
/// The step is 1 where they lie on that side, and 0 where they lie beside it: the nearest place is that of all.
// The step is a number, no flag: it is a factor of how far the next place lies.
#[derive(Clone, Copy)]
pub(crate) struct Spread {
    pub first: u32,
    pub count: u32,
    pub step: u32,
}

/// What the masks of some places of a side reach below: `count` places from `first` on; the first mask begins `before` places earlier.
#[derive(Clone, Copy)]
pub(crate) struct Reach {
    pub first: u32,
    pub count: u32,
    pub before: u32,
}
