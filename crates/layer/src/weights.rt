ghost use Rattle.std.specs.Prelude.{◌≡◌, ℕ, ℤ, ◌≤◌, pos, slice_index_or, unsigned_abs};

/// The weights of a window, in reading order.
// A trait: what a closure computes would be said less plainly by its `post`.
pub(crate) trait Weights: Copy {
    ghost weighs: { Self → ℕ → ℤ };

    fn weight(&self, index: usize) -> i32
        ensures { result ≡ weighs self.now index };
}

/// Each place counts once.
#[derive(Clone, Copy)]
pub(crate) struct Ones;

impl Weights for Ones {
    ghost weighs = { λ _ _. pos 1 };

    fn weight(&self, index: usize) -> i32 {
        1
    }
}

impl Weights for [i32; 9] {
    ghost weighs = { λ s k. slice_index_or s k (pos 0) };

    fn weight(&self, index: usize) -> i32 {
        self.get(index).copied().unwrap_or(0)
    }
}

/// What becomes of a window: its places are weighed, their sum is divided by `scale`, and `offset` is added.
#[derive(Drop)]
pub(crate) struct Filter<W: Weights> {
    pub weights: W,
    pub scale: u32,
    pub offset: i32,
    // no weight is heavy
    ghost light: { (k : ℕ) → unsigned_abs (W.weighs weights k) ≤ 256 },
    ghost scaled: { 1 ≤ scale },
}
