use crate::strips::STRIP;
use crate::tiles::SIDE;
use picture::Picture;
use pixel::Kind;
use std::alloc::AllocError;

/// What is needed to write the files of a picture: the runtime, the ending of their names, and buffers for codes and for bytes.
#[derive(Drop)]
pub struct Desk<'a> {
    pub rt: &'a HostRuntime,
    pub ending: &'a str,
    pub work: Vec<u64>,
    pub out: Vec<u8>,
}

impl<'a> Desk<'a> {
    /// With buffers for a strip and for a tile of the picture.
    pub fn new<P: Picture>(
        rt: &'a HostRuntime,
        ending: &'a str,
        picture: &P,
    ) -> Result<Desk<'a>, AllocError> {
        let strip = picture.size().width as usize * STRIP as usize;
        let places = strip.max(SIDE as usize * SIDE as usize);
        let work = vec![in rt.alloc(); 0u64; places]?;
        let out = vec![in rt.alloc(); 0u8; places * 6 + 64]?;
        Ok(Desk {
            rt,
            ending,
            work,
            out,
        })
    }
}
