ghost use Rattle.std.specs.Prelude.{◌≡◌, ℕ, ◌*◌, ◌≤◌, pos, ◌*ℤ◌, unsigned_abs};
ghost use Rattle.pixel.specs.Kinds.{colour};
ghost use Rattle.pixel.specs.Sampling.{colour_decodes, colour_recodes, colour_sampled, under_three};
ghost use Rattle.pixel.specs.Sums.{swapped, sum_grown};
ghost use Rattle.pixel.specs.ColourKindLemmas.{same, capped};
ghost use Rattle.std.proofs.Common.{arith, rules};

use crate::kind::Kind;
use crate::pixels::Colour;
use crate::scaling::{add, scaled};

/// A weighted sum of colour pixels, sample by sample.
// Not one type with `Colour`, which holds bounds of its samples that a sum has not.
#[derive(Clone, Copy)]
pub struct ColourSum {
    red: i64,
    green: i64,
    blue: i64,
}

impl Kind for Colour {
    type Sum = ColourSum;

    ghost ops = { colour };

    ghost held = { λ s n. (unsigned_abs s.red ≤ n * (256 * 65535)) × (unsigned_abs s.green ≤ n * (256 * 65535)) × (unsigned_abs s.blue ≤ n * (256 * 65535)) };

    ghost decodes = { colour_decodes };

    ghost recodes = { colour_recodes };

    ghost coded = { Prim.search rules };

    ghost few = { Prim.search rules };

    ghost deep = { Prim.search rules };

    ghost sampled = { colour_sampled };

    ghost fits = { λ p. under_three 65535 p.red p.green p.blue p.reds p.greens p.blues };

    ghost commutes = { λ s p q a b.
        same _ _ _ _ _ _
        (swapped s.red (a *ℤ pos p.red) (b *ℤ pos q.red))
        (swapped s.green (a *ℤ pos p.green) (b *ℤ pos q.green))
        (swapped s.blue (a *ℤ pos p.blue) (b *ℤ pos q.blue)) };

    ghost begun = { Prim.search rules };

    ghost grown = { λ s p w n h l. (
      sum_grown s.red w p.red n h.0 l p.reds,
      sum_grown s.green w p.green n h.1 l p.greens,
      sum_grown s.blue w p.blue n h.2 l p.blues,
    ) };

    ghost blacks = { Prim.search rules };

    ghost whites = { λ m. under_three m _ _ _ (omega arith) (omega arith) (omega arith) };

    ghost limits = { λ s k o m. under_three m _ _ _ (capped s.red k o m) (capped s.green k o m) (capped s.blue k o m) };

    fn mark() -> u8 {
        b'6'
    }

    fn depth() -> usize {
        3
    }

    fn sample(self, index: usize) -> u16 {
        match index {
            0 => self.red,
            1 => self.green,
            2 => self.blue,
            _ => 0,
        }
    }

    fn code(self) -> u64 {
        (self.red as u64) * 0x1_0000_0000 + (self.green as u64) * 0x1_0000 + self.blue as u64
    }

    fn decode(code: u64) -> Option<Colour> {
        if code < 0x1_0000_0000_0000 {
            Some(Colour {
                red: (code / 0x1_0000_0000) as u16,
                green: (code / 0x1_0000 % 0x1_0000) as u16,
                blue: (code % 0x1_0000) as u16,
            })
        } else {
            None
        }
    }

    fn black() -> Colour {
        Colour {
            red: 0,
            green: 0,
            blue: 0,
        }
    }

    fn white(maxval: u16) -> Colour {
        Colour {
            red: maxval,
            green: maxval,
            blue: maxval,
        }
    }

    fn empty() -> ColourSum {
        let none = 0;
        ColourSum {
            red: none,
            green: none,
            blue: none,
        }
    }

    fn more(sum: ColourSum, pixel: Colour, weight: i32) -> ColourSum {
        ColourSum {
            red: add(sum.red, pixel.red, weight),
            green: add(sum.green, pixel.green, weight),
            blue: add(sum.blue, pixel.blue, weight),
        }
    }

    fn finish(sum: ColourSum, scale: u32, offset: i32, maxval: u16) -> Colour {
        Colour {
            red: scaled(sum.red, scale, offset, maxval),
            green: scaled(sum.green, scale, offset, maxval),
            blue: scaled(sum.blue, scale, offset, maxval),
        }
    }
}
