ghost use Rattle.std.specs.Prelude.{◌≡◌, ℕ, ◌+◌, ◌*◌, ◌<◌, ◌≤◌};
ghost use Rattle.picture.specs.Compose.{summed};
ghost use Rattle.layer.specs.Aims.{Readable, lens_pixel};
ghost use Rattle.layer.specs.Sums.{downward};

use crate::aim::Lens;
use crate::weights::{Filter, Weights};
use pixel::Kind;
use std::marker::PhantomData;

/// Each place is a window through this filter.
#[derive(Drop)]
pub(crate) struct Blended<K, W: Weights> {
    pub lens: Lens,
    pub filter: Filter<W>,
    pub maxval: u16,
    pub kind: PhantomData<K>,
}

impl<K: Kind, W: Weights> Blended<K, W> {
    /// A sum with column `q` of the window at (i, j).
    fn add_column(&self, sum: K::Sum, codes: &[u64], i: u32, j: u32, q: u32) -> K::Sum
        requires can { Readable K.ops codes.now self.now.lens i j }
        requires inside { q < self.now.lens.columns }
        requires room { (n : ℕ) × K.held sum n × (n + self.now.lens.rows ≤ 4096) }
        ensures { result ≡ downward K.ops (lens_pixel K.ops codes.now self.now.lens i j) (W.weighs self.now.filter.weights) self.now.lens.columns q sum self.now.lens.rows }
    {
        let lens = self.lens;
        let wide = lens.at.width as usize;
        let column = (i * lens.across + q)
            .saturating_sub(lens.before)
            .min(lens.at.width - 1) as usize;
        let mut sum = sum;
        // by index, since a place of the window beyond the region is the one at its rim
        for r in 0..lens.rows {
            let row = (j * lens.down + r)
                .saturating_sub(lens.above)
                .min(lens.at.height - 1) as usize;
            let pixel = K::decode(codes[row * wide + column]).unwrap();
            let weight = self.filter.weights.weight((r * lens.columns + q) as usize);
            sum = K::more(sum, pixel, weight);
        }
        sum
    }

    /// The pixel that the window at (i, j) comes to.
    pub(crate) fn mix(&self, codes: &[u64], i: u32, j: u32) -> K
        requires { Readable K.ops codes.now self.now.lens i j }
        ensures { result ≡ K.ops.finish (summed K.ops (lens_pixel K.ops codes.now self.now.lens i j) (W.weighs self.now.filter.weights) (self.now.lens.columns * self.now.lens.rows)) self.now.filter.scale self.now.filter.offset self.now.maxval }
    {
        let sum = (0..self.lens.columns).fold(
            K::empty(),
            |sum, q| self.add_column(sum, codes, i, j, q),
        );
        K::finish(sum, self.filter.scale, self.filter.offset, self.maxval)
    }
}
