use crate::desk::Desk;
use crate::error::CutError;
use crate::strips::STRIP;
use picture::{Picture, Rect};
use pipeline::prepare_both;
use pixel::Kind;
use reread::open;
use std::fs;
use store::Bytes;

/// How many rows from the top two pictures have in common, counted by whole strips; none where their sizes differ.
fn common_rows<P: Picture, Q: Picture<Pixel = P::Pixel>>(
    first: &mut P,
    second: &mut Q,
    a: &mut [u64],
    b: &mut [u64],
) -> u32 {
    let size = first.size();
    if second.size() != size {
        return 0;
    }
    for strip in 0..size.height.div_ceil(STRIP) {
        let top = strip.saturating_mul(STRIP);
        let high = STRIP.min(size.height.saturating_sub(top));
        let Ok(rect) = Rect::new(0, top, size.width, high) else {
            return top;
        };
        let n = rect.area();
        let (Ok(()), Ok(())) = prepare_both(first, second, rect, a, b) else {
            return top;
        };
        if a.get(0..n) != b.get(0..n) {
            return top;
        }
    }
    size.height
}

impl<'a> Desk<'a> {
    /// Reads a written file again, and tells how many of its rows show what the picture shows. The bytes are proved to be right as they leave the engine; this looks at what became of them.
    pub fn read_back<P: Picture>(&mut self, picture: &mut P, name: &str) -> Result<u32, CutError> {
        let bytes = fs::read(self.rt, name)?;
        let mut again = vec![in self.rt.alloc(); 0u64; self.work.len()]?;
        let store = Bytes {
            bytes: bytes.as_slice(),
        };
        match open::<Bytes, P::Pixel>(store, 0) {
            Ok(mut file) => Ok(common_rows(
                picture,
                &mut file,
                self.work.as_mut_slice(),
                again.as_mut_slice(),
            )),
            Err(_) => Ok(0),
        }
    }
}
