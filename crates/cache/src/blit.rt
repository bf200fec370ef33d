ghost use Rattle.std.specs.Prelude.{ℕ, ◌+◌, ◌*◌, ◌<◌, ◌≤◌, length};
ghost use Rattle.picture.specs.Prepare.{area};
ghost use Rattle.cache.specs.Boxes.{Copied, Others, Overlaid};

use picture::Rect;

/// Copies a box of `wide` by `high` entries, whose rows begin each `stride` further, and where they go each `pitch` further.
fn blit(from: &[u64], stride: usize, to: &mut [u64], pitch: usize, wide: usize, high: usize)
    requires wide { wide ≤ pitch }
    requires from { (j : ℕ) → j < high → j * stride + wide ≤ length from.now }
    requires to { (j : ℕ) → j < high → j * pitch + wide ≤ length to.old }
    ensures copied { Copied from.now stride to.new pitch wide high }
    ensures others { Others to.old to.new pitch wide high }
{
    // By index: of what `chunks_mut` lends, a proof knows no entry afterwards.
    for j in 0..high {
        let (start, at) = (j * stride, j * pitch);
        to[at..at + wide].copy_from_slice(&from[start..start + wide]);
    }
}

/// Copies to a rectangle's entries those of a cell, where the two have places in common.
pub fn overlay(from: &[u64], cell: Rect, rect: Rect, to: &mut [u64])
    requires from { area cell ≤ length from.now }
    requires to { area rect ≤ length to.old }
    ensures { Overlaid from.now cell rect to.old to.new }
{
    let left = cell.left.max(rect.left);
    let right = (cell.left + cell.width).min(rect.left + rect.width);
    let top = cell.top.max(rect.top);
    let bottom = (cell.top + cell.height).min(rect.top + rect.height);
    if left < right && top < bottom {
        let stride = cell.width as usize;
        let pitch = rect.width as usize;
        let start = (top - cell.top) as usize * stride + (left - cell.left) as usize;
        let at = (top - rect.top) as usize * pitch + (left - rect.left) as usize;
        let wide = (right - left) as usize;
        let high = (bottom - top) as usize;
        blit(&from[start..], stride, &mut to[at..], pitch, wide, high);
    }
}
