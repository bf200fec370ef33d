ghost use Rattle.std.specs.Prelude.{◌≡◌, ℕ, ◌+◌, ◌<◌, ◌≤◌, List, length, ℤ, Some, slice_index, unsigned_abs};
ghost use Rattle.pixel.specs.Ops.{Ops, Under, joined};

/// A kind of pixel. Its meaning is `ops`; whatever computes with pixels is written once, over this interface.
pub trait Kind: Copy {
    /// A weighted sum of pixels.
    type Sum: Drop;

    ghost ops: { Ops Self Self.Sum };
    // a sum of at most this many pixels, with weights from -256 to 256
    ghost held: { Self.Sum → ℕ → Type 0 };

    /// The second byte of this kind's files, behind `P`.
    // a number, since it is a byte of the format
    fn mark() -> u8
        ensures { result ≡ ops.mark };

    /// How many samples a pixel has.
    fn depth() -> usize
        ensures { result ≡ ops.depth };

    /// The sample of this index; 0 past the last.
    fn sample(self, index: usize) -> u16
        ensures { result ≡ slice_index (ops.samples self) index };

    /// The number that stands for a pixel in a buffer.
    // not `From` and `TryFrom`, between which no law can stand
    fn code(self) -> u64
        ensures { result ≡ ops.code self };

    /// The pixel of a code, or nothing where the code is no pixel's.
    fn decode(code: u64) -> Option<Self>
        ensures { result ≡ ops.decode code };

    /// All samples 0.
    fn black() -> Self
        ensures { result ≡ ops.black };

    /// All samples `maxval`.
    fn white(maxval: u16) -> Self
        ensures { result ≡ ops.white maxval };

    /// The sum of no pixels.
    fn empty() -> Self::Sum
        ensures { result ≡ ops.empty };

    /// A sum with one more pixel times a weight.
    fn more(sum: Self::Sum, pixel: Self, weight: i32) -> Self::Sum
        requires room { (n : ℕ) × held sum n × (n < 4096) }
        requires light { unsigned_abs weight ≤ 256 }
        ensures { result ≡ ops.more sum pixel weight };

    /// The pixel of a sum: each sample divided by `scale`, rounded, moved by `offset` and limited to 0 and `maxval`.
    // three numbers by themselves, since scale and offset are a step's and maxval is the picture's
    fn finish(sum: Self::Sum, scale: u32, offset: i32, maxval: u16) -> Self
        requires room { (n : ℕ) × held sum n × (n ≤ 4096) }
        requires scale { 1 ≤ scale }
        ensures { result ≡ ops.finish sum scale offset maxval };

    // a pixel's code reads back as that pixel, and no other code does
    ghost decodes: { (p : Self) → ops.decode (ops.code p) ≡ Some p };

    ghost recodes: { (c : ℕ) (p : Self) → ops.decode c ≡ Some p → ops.code p ≡ c };

    // the code has the samples as its digits
    ghost coded: { (p : Self) → ops.code p ≡ joined (ops.samples p) };

    ghost few: { (1 ≤ ops.depth) × (ops.depth ≤ 3) };

    ghost deep: { (p : Self) → length (ops.samples p) ≡ ops.depth };

    ghost sampled: { (xs : List ℕ) → length xs ≡ ops.depth → Under 65535 xs → ops.samples (ops.pixel xs) ≡ xs };

    ghost fits: { (p : Self) → Under 65535 (ops.samples p) };

    // two weighted pixels added in either order give the same sum
    ghost commutes: { (s : Self.Sum) (p q : Self) (a b : ℤ) → ops.more (ops.more s p a) q b ≡ ops.more (ops.more s q b) p a };

    ghost begun: { held ops.empty 0 };

    ghost grown: { (s : Self.Sum) (p : Self) (w : ℤ) (n : ℕ) → held s n → unsigned_abs w ≤ 256 → held (ops.more s p w) (n + 1) };

    // what is made for a maxval has no sample above it
    ghost blacks: { (m : ℕ) → Under m (ops.samples ops.black) };

    ghost whites: { (m : ℕ) → Under m (ops.samples (ops.white m)) };

    ghost limits: { (s : Self.Sum) (k : ℕ) (o : ℤ) (m : ℕ) → Under m (ops.samples (ops.finish s k o m)) };
}
