ghost use Rattle.std.specs.Prelude.{◌≡◌};
ghost use Rattle.picture.specs.Steps.{ground_of};

/// What an embedding shows beside the picture that it holds.
#[derive(Clone, Copy, PartialEq, Eq, Debug, Default)]
pub enum Ground {
    /// All samples 0.
    #[default]
    Black,
    /// All samples maxval.
    White,
    /// The nearest place of the picture.
    Copy,
}

impl Ground {
    /// The ground that is named, or the one of an embedding that names none.
    pub fn or_default(named: Option<Ground>) -> Ground
        ensures { result ≡ ground_of named }
    {
        named.unwrap_or_default()
    }
}

#[derive(Clone, Copy, PartialEq, Eq, Debug)]
pub enum Axis {
    Horizontal,
    Vertical,
}

#[derive(Clone, Copy, PartialEq, Eq, Debug)]
pub enum Turn {
    D90,
    D270,
}

#[derive(Clone, Copy, PartialEq, Eq, Debug)]
pub enum Mask {
    Blur,
    Sharpen,
    Relief,
}

/// A step: how one picture is made of another, place by place.
// A value and not a closure, since steps are chosen at run time, without a heap.
#[derive(Clone, Copy, PartialEq, Eq, Debug)]
pub enum Step {
    Same,
    Crop {
        left: u32,
        top: u32,
        width: u32,
        height: u32,
    },
    Embed {
        x: i32,
        y: i32,
        width: u32,
        height: u32,
        ground: Option<Ground>,
    },
    Flip(Axis),
    Rot(Turn),
    Shrink {
        across: u32,
        down: u32,
    },
    Conv(Mask),
}
