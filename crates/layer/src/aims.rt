ghost use Rattle.std.specs.Prelude.{◌≡◌, ◌+◌, ◌-◌, ◌*◌, ◌<◌, ◌≤◌, true, pos, ◌-ℤ◌, unsigned_abs};
ghost use Rattle.picture.specs.Limits.{largest};
ghost use Rattle.picture.specs.Steps.{embedded, factor, formula, height_of, width_of};
ghost use Rattle.layer.specs.Aims.{Aims, Boxes, Copies, Flips, Inside, Turns, Windows};
ghost use Rattle.layer.specs.Spreads.{beside};

use crate::aim::{Aim, Carry, Lens};
use crate::over::Over;
use crate::spread::Spread;
use crate::spreads::{reach, spread};
use picture::{Axis, Ground, Rect, Size, Step, Turn};

/// The part lies below as it is, moved right by `left` and down by `top`.
fn straight(left: u32, top: u32, part: Rect) -> Carry
    requires across { part.left + left + part.width ≤ largest }
    requires down { part.top + top + part.height ≤ largest }
    ensures { Copies result (part.left + left + part.width) (part.top + top + part.height) part (λ u v. u + left) (λ u v. v + top) }
{
    Carry {
        at: Rect {
            left: part.left + left,
            top: part.top + top,
            width: part.width,
            height: part.height,
        },
        base: 0,
        right: 1,
        left: 0,
        down: part.width as usize,
        up: 0,
    }
}

/// The part lies below mirrored in a picture of this size.
fn flipped(axis: Axis, size: Size, part: Rect) -> Carry
    requires { Inside part size.width size.height }
    ensures { Flips axis result size.width size.height part }
{
    let Rect {
        left,
        top,
        width,
        height,
        ..
    } = part;
    match axis {
        Axis::Horizontal => Carry {
            at: Rect {
                left: size.width - left - width,
                top,
                width,
                height,
            },
            base: width as usize - 1,
            right: 0,
            left: 1,
            down: width as usize,
            up: 0,
        },
        Axis::Vertical => Carry {
            at: Rect {
                left,
                top: size.height - top - height,
                width,
                height,
            },
            base: (height as usize - 1) * width as usize,
            right: 1,
            left: 0,
            down: 0,
            up: width as usize,
        },
    }
}

/// The part lies below turned in a picture of this size.
fn turned(turn: Turn, size: Size, part: Rect) -> Carry
    requires { Inside part size.height size.width }
    ensures { Turns turn result size.width size.height part }
{
    let Rect {
        left,
        top,
        width,
        height,
        ..
    } = part;
    match turn {
        Turn::D90 => Carry {
            at: Rect {
                left: top,
                top: size.height - left - width,
                width: height,
                height: width,
            },
            base: (width as usize - 1) * height as usize,
            right: 0,
            left: height as usize,
            down: 1,
            up: 0,
        },
        Turn::D270 => Carry {
            at: Rect {
                left: size.width - top - height,
                top: left,
                width: height,
                height: width,
            },
            base: height as usize - 1,
            right: height as usize,
            left: 0,
            down: 0,
            up: 1,
        },
    }
}

/// The part lies over the boxes of `across` by `down` places below.
fn boxes(across: u32, down: u32, part: Rect) -> Lens
    requires across { factor across ≡ true }
    requires down { factor down ≡ true }
    requires right { part.left * across + part.width * across ≤ largest }
    requires bottom { part.top * down + part.height * down ≤ largest }
    ensures { Boxes result across down part }
{
    Lens {
        at: Rect {
            left: part.left * across,
            top: part.top * down,
            width: part.width * across,
            height: part.height * down,
        },
        columns: across,
        rows: down,
        across,
        down,
        before: 0,
        above: 0,
    }
}

/// The part lies under masks.
fn masked(size: Size, part: Rect) -> Lens
    requires { Inside part size.width size.height }
    ensures { Windows result size.width size.height part }
{
    let x = reach(part.left, part.width, size.width);
    let y = reach(part.top, part.height, size.height);
    Lens {
        at: Rect {
            left: x.first,
            top: y.first,
            width: x.count,
            height: y.count,
        },
        columns: 3,
        rows: 3,
        across: 1,
        down: 1,
        before: x.before,
        above: y.before,
    }
}

/// Whether all the places lie beside the picture below.
fn is_beside(spread: Option<Spread>) -> bool
    ensures { result ≡ beside spread }
{
    spread.is_some_and(|spread| spread.step == 0)
}

/// The part lies over the picture that an embedding holds, or beside it; nothing, if it lies across its edge.
fn placed(x: i32, y: i32, fill: Ground, size: Size, part: Rect) -> Option<Aim>
    requires across { unsigned_abs x ≤ largest }
    requires down { unsigned_abs y ≤ largest }
    ensures { Aims result (λ u v. embedded fill size.width size.height (pos u -ℤ x) (pos v -ℤ y)) size.width size.height part }
{
    let across = spread(part.left, x, part.width, size.width);
    let down = spread(part.top, y, part.height, size.height);
    if is_beside(across) || is_beside(down) {
        match fill {
            Ground::Black => return Some(Aim::Black),
            Ground::White => return Some(Aim::White),
            Ground::Copy => {}
        }
    }
    let (across, down) = (across?, down?);
    Some(Aim::Copy(Carry {
        at: Rect {
            left: across.first,
            top: down.first,
            width: across.count,
            height: down.count,
        },
        base: 0,
        // each step, 0 or 1, is a factor of a stride
        right: across.step as usize,
        left: 0,
        down: down.step as usize * across.count as usize,
        up: 0,
    }))
}

impl Over {
    /// What of the picture below makes a part: the formulas of the steps. Nothing, if the part lies across an edge.
    pub fn aim(self, part: Rect) -> Option<Aim>
        requires { Inside part (width_of self.step self.size.width self.size.height) (height_of self.step self.size.width self.size.height) }
        ensures { Aims result (formula self.step self.size.width self.size.height) self.size.width self.size.height part }
    {
        let size = self.size;
        let aim = match self.step {
            Step::Same => Aim::Copy(straight(0, 0, part)),
            Step::Crop { left, top, .. } => Aim::Copy(straight(left, top, part)),
            Step::Embed { x, y, ground, .. } => {
                return placed(x, y, Ground::or_default(ground), size, part);
            }
            Step::Flip(axis) => Aim::Copy(flipped(axis, size, part)),
            Step::Rot(turn) => Aim::Copy(turned(turn, size, part)),
            Step::Shrink { across, down } => Aim::Mean(boxes(across, down, part)),
            Step::Conv(mask) => Aim::Masked(masked(size, part), mask),
        };
        Some(aim)
    }
}
