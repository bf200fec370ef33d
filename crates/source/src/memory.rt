ghost use Rattle.std.specs.Prelude.{◌≡◌, ℕ, ◌+◌, ◌*◌, ◌≤◌, List, length, Some, slice_index};
ghost use Rattle.picture.specs.Images.{Sized};
ghost use Rattle.source.specs.Files.{sourced};
ghost use Rattle.source.specs.Memory.{acceptable, remembered_of, MemoryMade};
ghost use Rattle.std.proofs.Common.{rules};
ghost use Rattle.source.specs.Remembering.{dim_remembered};

use picture::{Cause, Fault, Picture, Rect, Refusal, Refused, Rows, Size, serve};
use pixel::Kind;
use std::marker::PhantomData;

/// A slice of pixel codes, or what lends one.
pub trait Codes {
    ghost codes: { Self → List ℕ };

    fn len(&self) -> usize
        ensures { result ≡ length (codes self.now) };

    /// The code of this index; 0 past the last.
    fn get(&self, index: usize) -> u64
        ensures { result ≡ slice_index (codes self.now) index };
}

/// A slice of pixel codes.
#[derive(Clone, Copy)]
pub struct CodeSlice<'a> {
    pub codes: &'a [u64],
}

impl<'a> Codes for CodeSlice<'a> {
    ghost codes = { λ s. s.codes.now };

    fn len(&self) -> usize {
        self.codes.len()
    }

    fn get(&self, index: usize) -> u64 {
        self.codes.get(index).copied().unwrap_or(0)
    }
}

/// A picture in memory: the codes of its pixels in reading order.
#[derive(Drop)]
pub struct MemorySource<C, K> {
    codes: C,
    size: Size,
    source: u8,
    count: u64,
    kind: PhantomData<K>,
}

/// Whether a code is a pixel with no sample above maxval.
fn is_pixel<K: Kind>(code: u64, maxval: u16) -> bool
    ensures { result ≡ acceptable K.ops maxval code }
{
    let Some(pixel) = K::decode(code) else {
        return false;
    };
    (0..K::depth()).all(|k| pixel.sample(k) <= maxval)
}

impl<C: Codes, K: Kind> MemorySource<C, K> {
    /// The picture of these codes, if its numbers are within their limits and the codes are enough.
    pub fn new(
        codes: C,
        width: u32,
        height: u32,
        maxval: u32,
        number: u32,
    ) -> Result<MemorySource<C, K>, Refused<C>>
        ensures { MemoryMade K.ops C.codes codes width height maxval number result }
    {
        match (Size::new(width, height, maxval), u8::try_from(number)) {
            (Ok(size), Ok(source)) if width as usize * height as usize <= codes.len() => Ok(
                MemorySource {
                    codes,
                    size,
                    source,
                    count: 0,
                    kind: PhantomData,
                },
            ),
            _ => Err(Refused {
                refusal: Refusal::OutsideLimits,
                back: codes,
            }),
        }
    }
}

impl<C: Codes, K: Kind> Rows for MemorySource<C, K> {
    type Pixel = K;

    ghost view = { remembered_of K.ops C.codes };

    ghost same = { λ s t. s ≡ t };

    ghost stays = { Prim.search rules };

    ghost follows = { Prim.search rules };

    ghost shows = { Prim.search rules };

    fn row(&mut self, left: u32, row: u32, out: &mut [u64]) -> Result<(), Fault> {
        let first = row as usize * self.size.width as usize + left as usize;
        for (k, place) in out.iter_mut().enumerate() {
            let code = self.codes.get(first + k);
            if !is_pixel::<K>(code, self.size.maxval) {
                return Err(Fault {
                    cause: Cause::NoPixel,
                    source: self.source,
                    column: left + k as u32,
                    row,
                });
            }
            *place = code;
        }
        Ok(())
    }
}

// As a file's: one type over `Rows` for both would need a trait of its own for the size and its laws, and is no plainer.
impl<C: Codes, K: Kind> Picture for MemorySource<C, K> {
    type Pixel = K;

    ghost model = { λ s. sourced (remembered_of K.ops C.codes s) };

    ghost count = { λ s. s.count };

    ghost bare = { λ _. Unit {0} };

    ghost sized = { Prim.search rules };

    ghost bounded = { λ p u v a b. dim_remembered K.ops p.size.maxval _ _ };

    ghost composed = { Prim.search rules };

    fn size(&self) -> Size {
        self.size
    }

    fn prepare(&mut self, rect: Rect, buffer: &mut [u64]) -> Result<(), Refusal> {
        self.count = self.count.saturating_add(1);
        let Size { width, height, .. } = self.size;
        serve(self, width, height, rect, buffer)
    }

    fn count(&self) -> u64 {
        self.count
    }

    fn forget(&mut self) {}
}
