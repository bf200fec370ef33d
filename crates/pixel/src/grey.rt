ghost use Rattle.std.specs.Prelude.{◌≡◌, ℕ, ◌*◌, ◌≤◌, min, pos, ◌*ℤ◌, unsigned_abs};
ghost use Rattle.pixel.specs.Kinds.{grey};
ghost use Rattle.pixel.specs.Sampling.{grey_decodes, grey_recodes, grey_sampled, under_one};
ghost use Rattle.pixel.specs.Sums.{swapped, sum_grown, finished-under};
ghost use Rattle.std.proofs.Common.{arith, rules};
ghost use Rattle.pixel.specs.Scaling.{finished};

use crate::kind::Kind;
use crate::pixels::Grey;
use crate::scaling::{add, scaled};

impl Kind for Grey {
    type Sum = i64;

    ghost ops = { grey };

    ghost held = { λ s n. unsigned_abs s ≤ n * (256 * 65535) };

    ghost decodes = { grey_decodes };

    ghost recodes = { grey_recodes };

    ghost coded = { Prim.search rules };

    ghost few = { Prim.search rules };

    ghost deep = { Prim.search rules };

    ghost sampled = { grey_sampled };

    ghost fits = { λ p. under_one 65535 p.value p.fits };

    ghost commutes = { λ s p q a b. swapped s (a *ℤ pos p.value) (b *ℤ pos q.value) };

    ghost begun = { Prim.search rules };

    ghost grown = { λ s p w n h l. sum_grown s w p.value n h l p.fits };

    ghost blacks = { Prim.search rules };

    ghost whites = { λ m. under_one m _ (omega arith) };

    ghost limits = { λ s k o m. under_one m (min (finished s k o m) 65535) (omega (arith, finished-under s k o m)) };

    fn mark() -> u8 {
        b'5'
    }

    fn depth() -> usize {
        1
    }

    fn sample(self, index: usize) -> u16 {
        if index == 0 { self.value } else { 0 }
    }

    fn code(self) -> u64 {
        self.value as u64
    }

    fn decode(code: u64) -> Option<Grey> {
        if code < 0x1_0000 {
            Some(Grey { value: code as u16 })
        } else {
            None
        }
    }

    fn black() -> Grey {
        Grey { value: 0 }
    }

    fn white(maxval: u16) -> Grey {
        Grey { value: maxval }
    }

    fn empty() -> i64 {
        0
    }

    fn more(sum: i64, pixel: Grey, weight: i32) -> i64 {
        add(sum, pixel.value, weight)
    }

    fn finish(sum: i64, scale: u32, offset: i32, maxval: u16) -> Grey {
        Grey {
            value: scaled(sum, scale, offset, maxval),
        }
    }
}
