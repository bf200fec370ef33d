ghost use Rattle.std.specs.Prelude.{◌+◌, ◌≤◌};
ghost use Rattle.picture.specs.Limits.{largest};

/// A rectangle of places: both sides are at least 1, and neither extent is above the limit.
#[derive(Clone, Copy, PartialEq, Eq, Debug)]
pub struct Rect {
    pub left: u32,
    pub top: u32,
    pub width: u32,
    pub height: u32,
    ghost wide: { 1 ≤ width },
    ghost high: { 1 ≤ height },
    ghost across: { left + width ≤ largest },
    ghost down: { top + height ≤ largest },
}
