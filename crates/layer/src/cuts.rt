ghost use Rattle.std.specs.Prelude.{◌≡◌, ◌+◌, ◌<◌, ◌≤◌, true, Some, unsigned_abs};
ghost use Rattle.picture.specs.Limits.{largest};
ghost use Rattle.layer.specs.Cuts.{Cuts, Halves, Smaller, Within};

use crate::cut::Cut;
use crate::drawer::ROOM;
use crate::over::Over;
use picture::{Rect, Step};

/// The first edge of what an embedding holds that lies among `count` places from `from` on.
// The places go by two numbers: a struct of them would be made of a part's numbers for each call and be taken apart in it.
fn edge(from: u32, count: u32, offset: i32, side: u32) -> Option<u32>
    requires near { unsigned_abs offset ≤ largest }
    requires within { from + count ≤ largest }
    requires limit { side ≤ largest }
    ensures { Within result count }
{
    let near = offset - from as i32;
    let far = near + side as i32;
    if 0 < near && near < count as i32 {
        Some(near as u32)
    } else if 0 < far && far < count as i32 {
        Some(far as u32)
    } else {
        None
    }
}

/// Halves the longer side of a part, unless it is a single place.
fn halved(part: Rect) -> Option<Cut>
    ensures { Cuts result part }
{
    if part.width >= part.height && part.width >= 2 {
        Some(Cut::Across(part.width / 2))
    } else if part.height >= 2 {
        Some(Cut::Down(part.height / 2))
    } else {
        None
    }
}

impl Over {
    /// How many places below a part needs, about.
    fn needs(self, part: Rect) -> u64 {
        let (wide, high) = match self.step {
            Step::Shrink { across, down } => (part.width * across, part.height * down),
            Step::Conv(_) => (part.width + 2, part.height + 2),
            _ => (part.width, part.height),
        };
        wide as u64 * high as u64
    }

    /// Cuts a part at the edges of what an embedding holds, and in halves where it needs more than there is room for.
    pub fn cut(self, part: Rect) -> Option<Cut>
        ensures { Cuts result part }
    {
        if let Step::Embed { x, y, .. } = self.step {
            if let Some(n) = edge(part.left, part.width, x, self.size.width) {
                return Some(Cut::Across(n));
            }
            if let Some(n) = edge(part.top, part.height, y, self.size.height) {
                return Some(Cut::Down(n));
            }
        }
        if self.needs(part) > ROOM as u64 {
            halved(part)
        } else {
            None
        }
    }
}

impl Cut {
    /// Both sides of the cut.
    pub fn halves(self, part: Rect) -> (Rect, Rect)
        requires { Cuts (Some self) part }
        ensures cut { Halves self part result.0 result.1 }
        ensures smaller { Smaller part result.0 result.1 }
    {
        match self {
            Cut::Across(n) => (
                Rect {
                    left: part.left,
                    top: part.top,
                    width: n,
                    height: part.height,
                },
                Rect {
                    left: part.left + n,
                    top: part.top,
                    width: part.width - n,
                    height: part.height,
                },
            ),
            Cut::Down(n) => (
                Rect {
                    left: part.left,
                    top: part.top,
                    width: part.width,
                    height: n,
                },
                Rect {
                    left: part.left,
                    top: part.top + n,
                    width: part.width,
                    height: part.height - n,
                },
            ),
        }
    }
}
