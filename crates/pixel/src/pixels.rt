ghost use Rattle.std.specs.Prelude.{◌≤◌};

/// A grey pixel: one sample.
#[derive(Clone, Copy, PartialEq, Eq, Debug)]
pub struct Grey {
    pub value: u16,
    ghost fits: { value ≤ 65535 },
}

/// A colour pixel: three samples.
// A type of its own beside `Grey`: an array of one sample or three would lose their names, on which the format's order hangs.
#[derive(Clone, Copy, PartialEq, Eq, Debug)]
pub struct Colour {
    pub red: u16,
    pub green: u16,
    pub blue: u16,
    ghost reds: { red ≤ 65535 },
    ghost greens: { green ≤ 65535 },
    ghost blues: { blue ≤ 65535 },
}
