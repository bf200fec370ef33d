ghost use Rattle.std.specs.Prelude.{◌+◌, ◌≤◌, unsigned_abs};
ghost use Rattle.picture.specs.Limits.{largest};
ghost use Rattle.layer.specs.Spreads.{Spreads, Reaches};

use crate::spread::{Reach, Spread};

// The places of a side go by two numbers, since a struct of them would be made of a part's numbers for each call and be taken apart in it.

/// How `count` places from `from` on fall on a side below that an embedding moves by `offset`; nothing, if they fall on both sides of an edge.
pub(crate) fn spread(from: u32, offset: i32, count: u32, side: u32) -> Option<Spread>
    requires near { unsigned_abs offset ≤ largest }
    requires within { from + count ≤ largest }
    requires some { 1 ≤ count }
    requires any { 1 ≤ side }
    requires limit { side ≤ largest }
    ensures { Spreads result from offset count side }
{
    let start = from as i32 - offset;
    let end = start + count as i32;
    if start >= 0 && end <= side as i32 {
        Some(Spread {
            first: start as u32,
            count,
            step: 1,
        })
    } else if end <= 0 {
        Some(Spread {
            first: 0,
            count: 1,
            step: 0,
        })
    } else if start >= side as i32 {
        Some(Spread {
            first: side - 1,
            count: 1,
            step: 0,
        })
    } else {
        None
    }
}

/// What the masks of `count` places from `from` on reach.
pub(crate) fn reach(from: u32, count: u32, side: u32) -> Reach
    requires some { 1 ≤ count }
    requires within { from + count ≤ side }
    requires limit { side ≤ largest }
    ensures { Reaches result from count side }
{
    let first = from.saturating_sub(1);
    let last = (from + count).min(side - 1);
    Reach {
        first,
        count: last - first + 1,
        before: 1 - from.min(1),
    }
}
