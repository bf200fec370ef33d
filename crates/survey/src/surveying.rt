ghost use Rattle.std.specs.Prelude.{◌≡◌, ◌+◌, ◌*◌, ◌/◌, ◌%◌, ◌<◌, ◌≤◌, length, Ok};
ghost use Rattle.picture.specs.Prepare.{first_in, lined, Shown};
ghost use Rattle.survey.specs.Surveys.{Account, reading, surveyed, up_to};

use crate::findings::Survey;
use picture::{Fault, Picture, Rect, Refusal, Size};

/// The longest part of a row that is asked for at once, into a buffer of fixed length, since the engine allocates nothing.
const LONGEST: usize = 4096;

/// The part of a row to ask for at a place: as long as the run, the row and the places that are left allow.
fn part_at(size: Size, place: u64, count: u64, run: usize) -> Rect
    requires run { 1 ≤ run }
    requires left { place < count }
    requires within { count ≤ size.width * size.height }
    ensures left { result.left ≡ place % size.width }
    ensures top { result.top ≡ place / size.width }
    ensures height { result.height ≡ 1 }
    ensures run { result.width ≤ run }
    ensures across { result.left + result.width ≤ size.width }
    ensures down { result.top < size.height }
    ensures count { place + result.width ≤ count }
{
    let wide = size.width as u64;
    let left = place % wide;
    let width = (wide - left).min(run as u64).min(count - place);
    Rect {
        left: left as u32,
        top: (place / wide) as u32,
        width: width as u32,
        height: 1,
    }
}

/// Puts the codes of a part of a row into the buffer, or tells the first hole's fault.
// As a layer asks the picture below; one public function for both would have a premise, which no call of a picture has.
fn look<P: Picture>(picture: &mut P, part: Rect, buffer: &mut [u64]) -> Result<(), Fault>
    requires flat { part.height ≡ 1 }
    requires across { part.left + part.width ≤ (P.model picture.old).shown.width }
    requires down { part.top < (P.model picture.old).shown.height }
    requires room { part.width ≤ length buffer.old }
    ensures answer { result ≡ first_in (lined (P.model picture.old).shown part.left part.top) part.width }
    ensures codes { result ≡ Ok tt → Shown P.Pixel.ops (lined (P.model picture.old).shown part.left part.top) part.width buffer.new }
    ensures kept { P.model picture.new ≡ P.model picture.old }
    ensures quick { P.count picture.new ≤ P.count picture.old + 1 }
{
    match picture.prepare(part, buffer) {
        Ok(()) => Ok(()),
        Err(Refusal::Hole(fault)) => Err(fault),
        Err(_) => unreachable(),
    }
}

/// Surveys the first `places` places of a picture in reading order, or all of them if there are fewer.
/// It makes at most two prepares for each place, and twelve more.
pub fn survey<P: Picture>(picture: &mut P, places: u64) -> Survey
    ensures value { result ≡ surveyed P.Pixel.ops (P.model picture.old).shown (up_to (P.model picture.old).shown places) }
    ensures law { Account P.Pixel.ops (reading (P.model picture.old).shown) (up_to (P.model picture.old).shown places) result }
    ensures kept { P.model picture.new ≡ P.model picture.old }
    ensures quick { P.count picture.new ≤ P.count picture.old + 2 * up_to (P.model picture.old).shown places + 12 }
{
    let size = picture.size();
    let count = places.min(size.width as u64 * size.height as u64);
    let mut buffer = [0; LONGEST];
    let mut survey = Survey::new();
    let mut place: u64 = 0;
    let mut run = LONGEST;
    // How far a turn gets, and whether it is tried again with a shorter run, is known only from its answer: no iterator has these parts.
    while place < count {
        let part = part_at(size, place, count, run);
        let n = part.width as usize;
        match look(picture, part, &mut buffer) {
            Ok(()) => {
                survey.note_pixels::<P::Pixel>(&buffer[..n]);
                place += n as u64;
                run = (run * 2).min(LONGEST);
            }
            Err(fault) if n == 1 => {
                survey.note_hole(fault);
                place += 1;
            }
            Err(_) => run = n / 2,
        }
    }
    survey
}
