ghost use Rattle.std.specs.Prelude.{◌≡◌, ℕ, ◌+◌, ◌*◌, ◌^◌, ◌≤◌, ℤ, pos, ◌+ℤ◌, ◌*ℤ◌, unsigned_abs};
ghost use Rattle.pixel.specs.Scaling.{finished};

/// One sample of a sum with one more pixel's sample times a weight.
pub fn add(sum: i64, sample: u16, weight: i32) -> i64
    requires small { unsigned_abs sum ≤ 2 ^ 40 }
    requires light { unsigned_abs weight ≤ 256 }
    ensures { result ≡ sum +ℤ weight *ℤ pos sample }
{
    sum + weight as i64 * sample as i64
}

/// The sample that a sum comes to.
pub fn scaled(sum: i64, scale: u32, offset: i32, maxval: u16) -> u16
    requires small { unsigned_abs sum ≤ 2 ^ 40 }
    requires scale { 1 ≤ scale }
    ensures { result ≡ finished sum scale offset maxval }
{
    let whole = (sum + (scale / 2) as i64).div_euclid(scale as i64) + offset as i64;
    whole.clamp(0, maxval as i64) as u16
}
