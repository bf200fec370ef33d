use picture::{Mask, Rect};

/// A walk through the codes of a region: one place to the right or down in a part is so many codes ahead, or back.
#[derive(Clone, Copy)]
pub(crate) struct Carry {
    pub at: Rect,
    pub base: usize,
    pub right: usize,
    pub left: usize,
    pub down: usize,
    pub up: usize,
}

/// Windows over a region: each has so many columns and rows, the next one lies so many places on, and the first one begins so many before the region.
#[derive(Clone, Copy)]
pub(crate) struct Lens {
    pub at: Rect,
    pub columns: u32,
    pub rows: u32,
    pub across: u32,
    pub down: u32,
    pub before: u32,
    pub above: u32,
}

/// How a part of a layer is made at once.
#[derive(Clone, Copy)]
pub(crate) enum Aim {
    /// Each place is black.
    Black,
    /// Each place is white.
    White,
    /// Each place shows one place of a region below.
    Copy(Carry),
    /// Each place is the mean of a window.
    Mean(Lens),
    /// Each place is a window by a mask.
    Masked(Lens, Mask),
}
