ghost use Rattle.std.specs.Prelude.{◌≡◌, ℕ, ◌+◌, ◌-◌, ◌^◌, ◌<◌, ◌≤◌, min, true, length, is_some, Some, slice_index};
ghost use Rattle.picture.specs.Places.{Place};
ghost use Rattle.picture.specs.Prepare.{Shown};
ghost use Rattle.survey.specs.Surveys.{fresh, seen, holes_of, wider, widened, shown, counted, faulted, onward};

use crate::findings::{Range, Survey};
use picture::{Cause, Fault};
use pixel::Kind;

/// A range with one more sample.
fn widen(range: Option<Range>, sample: u16) -> Option<Range>
    ensures { result ≡ wider range sample }
{
    let Range { smallest, largest } = range.unwrap_or(Range {
        smallest: sample,
        largest: sample,
    });
    Some(Range {
        smallest: smallest.min(sample),
        largest: largest.max(sample),
    })
}

/// A range with the samples of one more pixel.
fn widen_all<K: Kind>(range: Option<Range>, pixel: K) -> Option<Range>
    ensures { result ≡ widened range (K.ops.samples pixel) }
{
    (0..K::depth()).fold(range, |range, i| widen(range, pixel.sample(i)))
}

impl Survey {
    /// A survey of no places.
    pub fn new() -> Survey
        ensures { result ≡ fresh }
    {
        Survey::default()
    }

    /// How many holes there are, of all causes; it stops at 2^64 - 1.
    pub fn holes(&self) -> u64
        ensures { result ≡ min (holes_of self.now) (2 ^ 64 - 1) }
    {
        self.missing
            .saturating_add(self.unread)
            .saturating_add(self.above)
            .saturating_add(self.no_pixel)
    }

    // What follows asks for room by a premise: today a caller may make any survey, and a bound in its type would ask more of it.

    /// Notes one more pixel.
    fn note_pixel<K: Kind>(&mut self, pixel: K)
        requires { seen self.old < 2 ^ 63 }
        ensures { self.new ≡ shown (K.ops.samples pixel) self.old }
    {
        self.pixels += 1;
        self.range = widen_all(self.range, pixel);
    }

    /// Notes the pixels of these codes.
    pub(crate) fn note_pixels<K: Kind>(&mut self, codes: &[u64])
        requires room { seen self.old + length codes.now ≤ 2 ^ 63 }
        requires codes { (k : ℕ) → k < length codes.now → is_some (K.ops.decode (slice_index codes.now k)) ≡ true }
        ensures { (f : ℕ → Place K) → Shown K.ops f (length codes.now) codes.now → self.new ≡ onward K.ops self.old f (length codes.now) }
    {
        for code in codes {
            self.note_pixel(K::decode(*code).unwrap());
        }
    }

    /// Notes one more hole.
    pub(crate) fn note_hole(&mut self, fault: Fault)
        requires { seen self.old < 2 ^ 63 }
        ensures { self.new ≡ faulted (Some fault) (counted fault.cause self.old) }
    {
        match fault.cause {
            Cause::Missing => self.missing += 1,
            Cause::Unread => self.unread += 1,
            Cause::Above => self.above += 1,
            Cause::NoPixel => self.no_pixel += 1,
        }
        self.first = self.first.or(Some(fault));
    }
}
