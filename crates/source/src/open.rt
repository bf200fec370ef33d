ghost use Rattle.std.specs.Prelude.{◌≡◌};
ghost use Rattle.source.specs.Front.{beginning};
ghost use Rattle.source.specs.Opening.{Opened, Opens};

use crate::file::{BLOCK, FileSource};
use crate::front::read_header;
use crate::header::Header;
use crate::raster::Raster;
use picture::{Refusal, Refused, Size};
use pixel::Kind;
use std::marker::PhantomData;
use store::Store;

impl<S: Store, K: Kind> FileSource<S, K> {
    /// Opens the picture that a store has, as the source of this number, or hands the store back.
    pub fn open(store: S, number: u32) -> Result<FileSource<S, K>, Refused<S>>
        ensures value { Opened K.ops.mark (beginning (S.at store)) store number result }
        ensures law { Opens K.ops.mark (beginning (S.at store)) number result }
    {
        let Ok(source) = u8::try_from(number) else {
            return Err(Refused {
                refusal: Refusal::OutsideLimits,
                back: store,
            });
        };
        match read_header(&store, K::mark()) {
            Ok(
                Header {
                    width,
                    height,
                    maxval,
                    length,
                },
            ) => Ok(FileSource {
                store,
                raster: Raster {
                    start: length,
                    size: Size {
                        width,
                        height,
                        maxval,
                    },
                    source,
                },
                count: 0,
                block: [0; BLOCK],
                kind: PhantomData,
            }),
            // No `?`, since the store goes back too.
            Err(error) => Err(Refused {
                refusal: Refusal::from(error),
                back: store,
            }),
        }
    }
}
