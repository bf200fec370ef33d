ghost use Rattle.std.specs.Prelude.{◌≤◌};
ghost use Rattle.picture.specs.Limits.{largest};

/// The sides of a picture and its largest sample.
#[derive(Clone, Copy, PartialEq, Eq, Debug)]
pub struct Size {
    pub width: u32,
    pub height: u32,
    pub maxval: u16,
    ghost wide: { 1 ≤ width },
    ghost high: { 1 ≤ height },
    ghost bright: { 1 ≤ maxval },
    ghost across: { width ≤ largest },
    ghost down: { height ≤ largest },
    ghost fits: { maxval ≤ 65535 },
}
