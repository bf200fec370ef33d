ghost use Rattle.std.specs.Prelude.{◌≡◌, ◌+◌, ◌*◌, ◌<◌, ◌≤◌, length, Ok};
ghost use Rattle.store.specs.Cells.{capped};
ghost use Rattle.picture.specs.Prepare.{first_in, lined, Shown};
ghost use Rattle.source.specs.Files.{lack_cause, sourced};
ghost use Rattle.source.specs.Loading.{Loaded};
ghost use Rattle.source.specs.Showing.{SameFile, shown_of};
ghost use Rattle.std.proofs.Common.{rules};
ghost use Rattle.source.specs.Rasters.{Lawful, raster_bounded};

use crate::raster::Raster;
use crate::reads::read_some;
use crate::samples::decode;
use picture::{Cause, Fault, Picture, Rect, Refusal, Rows, Size, serve};
use pixel::{Kind, pixel_bytes};
use std::marker::PhantomData;
use store::{Lack, Store};

/// How many pixels are read at once.
const RUN: usize = 1024;

/// The bytes of so many pixels: a pixel has at most 6.
pub(crate) const BLOCK: usize = 6 * RUN;

/// The picture in a file, whose bytes a store has.
// Its block has a fixed length, since the engine allocates nothing.
#[derive(Drop)]
pub struct FileSource<S, K> {
    pub(crate) store: S,
    pub(crate) raster: Raster,
    pub(crate) count: u64,
    pub(crate) block: [u8; BLOCK],
    pub(crate) kind: PhantomData<K>,
}

/// The pixels whose bytes could be read, and why there are no more.
#[derive(Clone, Copy)]
struct Load {
    pixels: usize,
    lack: Option<Cause>,
}

// No `From<Lack> for Cause`: both types are of other crates.
fn cause_of(lack: Lack) -> Cause
    ensures { result ≡ lack_cause lack }
{
    match lack {
        Lack::Missing(_) => Cause::Missing,
        Lack::Unread(_) => Cause::Unread,
    }
}

/// Reads the bytes of `count` pixels, or of those before the first that lacks one.
fn read_pixels<S: Store>(store: &S, place: u64, step: usize, count: usize, block: &mut [u8]) -> Load
    requires some { 1 ≤ step }
    requires room { count * step ≤ length block.old }
    ensures { Loaded (capped (S.at store.now)) place step count block.new result.pixels result.lack }
{
    // A match, since nothing is left to divide where all bytes are there.
    match read_some(store, place, &mut block[..count * step]) {
        (_, None) => Load {
            pixels: count,
            lack: None,
        },
        (bytes, Some(lack)) => Load {
            pixels: bytes / step,
            lack: Some(cause_of(lack)),
        },
    }
}

impl<S: Store, K: Kind> FileSource<S, K> {
    /// A run of pixels of a row, or the fault of the first hole among them.
    fn run(&mut self, left: u32, row: u32, out: &mut [u64]) -> Result<(), Fault>
        requires across { left + length out.old ≤ self.old.raster.size.width }
        requires down { row < self.old.raster.size.height }
        requires short { length out.old ≤ 1024 }
        ensures answer { result ≡ first_in (lined (shown_of K.ops S.at self.old) left row) (length out.old) }
        ensures shown { result ≡ Ok tt → Shown K.ops (lined (shown_of K.ops S.at self.old) left row) (length out.old) out.new }
        ensures same { SameFile self.old self.new }
    {
        let Raster {
            start,
            size,
            source,
        } = self.raster;
        let step = pixel_bytes::<K>(size.maxval);
        let place = start + (row as u64 * size.width as u64 + left as u64) * step as u64;
        let Load { pixels, lack } = read_pixels(
            &self.store,
            place,
            step,
            out.len(),
            &mut self.block,
        );
        let taken = decode::<K>(&self.block, size.maxval, &mut out[..pixels]);
        let hole = if taken < pixels {
            Some(Cause::Above)
        } else {
            lack
        };
        match hole {
            None => Ok(()),
            Some(cause) => Err(Fault {
                cause,
                source,
                column: left + taken as u32,
                row,
            }),
        }
    }
}

impl<S: Store, K: Kind> Rows for FileSource<S, K> {
    type Pixel = K;

    ghost view = { shown_of K.ops S.at };

    ghost same = { SameFile };

    ghost stays = { Prim.search rules };

    ghost follows = { Prim.search rules };

    ghost shows = { Prim.search rules };

    fn row(&mut self, left: u32, row: u32, out: &mut [u64]) -> Result<(), Fault> {
        // By index: `chunks_mut` was tried, and of `out` a proof then knows no more than its length.
        // `step_by`, and the length of what is left: by a run's number and its end, prepares of single places took up to half as many instructions again.
        for from in (0..out.len()).step_by(RUN) {
            let n = (out.len() - from).min(RUN);
            self.run(left + from as u32, row, &mut out[from..from + n])?;
        }
        Ok(())
    }
}

impl<S: Store, K: Kind> Picture for FileSource<S, K> {
    type Pixel = K;

    ghost model = { λ s. sourced (shown_of K.ops S.at s) };

    ghost count = { λ s. s.count };

    ghost bare = { λ _. Unit {0} };

    ghost sized = { Prim.search rules };

    ghost bounded = { λ p u v a b.
        let laws : Lawful K.ops = record { coded = K.coded; sampled = K.sampled } in
        raster_bounded K.ops (capped (S.at p.store)) p.raster laws u v };

    ghost composed = { Prim.search rules };

    fn size(&self) -> Size {
        self.raster.size
    }

    fn prepare(&mut self, rect: Rect, buffer: &mut [u64]) -> Result<(), Refusal> {
        self.count = self.count.saturating_add(1);
        let Size { width, height, .. } = self.raster.size;
        serve(self, width, height, rect, buffer)
    }

    fn count(&self) -> u64 {
        self.count
    }

    fn forget(&mut self) {}
}
