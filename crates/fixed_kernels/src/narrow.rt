//! Sums in 64 bits.

ghost use Rattle.std.specs.Prelude.{◌≡◌, ℕ, ◌*◌, ◌^◌, ◌<◌, ◌≤◌, ◌+◌, ◌-◌, ◌+ℤ◌, ◌-ℤ◌, ◌*ℤ◌, length, pos, slice_index, slice_index_or, true, unsigned_abs};
ghost use Rattle.graph_model.specs.Bounds.{weight};
ghost use Rattle.graph_model.specs.Rounding.{rounded};
ghost use Rattle.fixed_kernels.specs.Sums.{AreWithin, IsSum};

/// The sum of the sizes of the coefficients.
pub(crate) fn weight_of(coefficients: &[i32]) -> u64
    requires few { length coefficients.now ≤ 2 ^ 12 }
    ensures value { result ≡ weight coefficients.now }
    ensures size { result ≤ 2 ^ 43 }
{
    let mut sum: u64 = 0;
    for k in 0..coefficients.len() {
        sum += coefficients[k].unsigned_abs() as u64;
    }
    sum
}

/// The sum and a coefficient times a sample that is no larger than this.
#[inline]
pub(crate) fn plus_narrow(sum: i64, coefficient: i32, sample: i64, most: u64) -> i64
    requires within { unsigned_abs sample ≤ most }
    requires fits { unsigned_abs sum + unsigned_abs coefficient * most ≤ 2 ^ 62 }
    ensures value { result ≡ sum +ℤ (coefficient *ℤ sample) }
    ensures size { unsigned_abs result ≤ unsigned_abs sum + unsigned_abs coefficient * most }
{
    sum + narrow_product(coefficient, sample, most)
}

/// The sum without a coefficient times a sample that is no larger than this.
#[inline]
pub(crate) fn minus_narrow(sum: i64, coefficient: i32, sample: i64, most: u64) -> i64
    requires within { unsigned_abs sample ≤ most }
    requires fits { unsigned_abs sum + unsigned_abs coefficient * most ≤ 2 ^ 62 }
    ensures value { result ≡ sum -ℤ (coefficient *ℤ sample) }
    ensures size { unsigned_abs result ≤ unsigned_abs sum + unsigned_abs coefficient * most }
{
    sum - narrow_product(coefficient, sample, most)
}

/// `a / 2^q` rounded to the nearest, a half upward.
#[inline]
pub(crate) fn rs_narrow(a: i64, q: u32) -> i64
    requires size { unsigned_abs a ≤ 2 ^ 62 }
    requires shift { q ≤ 40 }
    ensures { result ≡ rounded a q }
{
    if q == 0 { a } else { nudged(a, q) >> q }
}

/// The number and a half of `2^q`.
#[inline]
fn nudged(a: i64, q: u32) -> i64
    requires size { unsigned_abs a ≤ 2 ^ 62 }
    requires some { 0 < q }
    requires shift { q ≤ 40 }
    ensures { result ≡ a +ℤ pos (2 ^ (q - 1)) }
{
    a + half_unit(q)
}

/// A half of `2^q`.
#[inline]
fn half_unit(q: u32) -> i64
    requires some { 0 < q }
    requires shift { q ≤ 40 }
    ensures { result ≡ pos (2 ^ (q - 1)) }
{
    (1u64 << (q - 1)) as i64
}

/// The greatest of the numbers.
pub(crate) fn greatest(numbers: &[u64]) -> u64
    ensures { (k : ℕ) → slice_index numbers.now k ≤ result }
{
    let mut greatest = 0;
    for k in 0..numbers.len() {
        greatest = numbers[k].max(greatest);
    }
    greatest
}

/// A coefficient times a sample that is no larger than this.
#[inline]
pub(crate) fn narrow_product(coefficient: i32, sample: i64, most: u64) -> i64
    requires small { unsigned_abs coefficient * most ≤ 2 ^ 62 }
    requires within { unsigned_abs sample ≤ most }
    ensures value { result ≡ coefficient *ℤ sample }
    ensures size { unsigned_abs result ≤ 2 ^ 62 }
{
    coefficient as i64 * sample
}

/// A number that no sample exceeds in size.
pub(crate) fn most_in(samples: &[i64]) -> u64
    ensures { AreWithin result samples.now }
{
    let mut most = 0;
    for k in 0..samples.len() {
        most = samples[k].unsigned_abs().max(most);
    }
    most
}

/// A coefficient times a sample of 32 bits.
#[inline]
fn half_product(coefficient: i32, sample: i64) -> i64
    requires half { unsigned_abs sample < 2 ^ 31 }
    ensures { result ≡ coefficient *ℤ sample }
{
    coefficient as i64 * (sample as i32) as i64
}

/// The sum and a coefficient times a sample of 32 bits that is no larger than this.
#[inline]
fn plus_half(sum: i64, coefficient: i32, sample: i64, most: u64) -> i64
    requires half { most < 2 ^ 31 }
    requires within { unsigned_abs sample ≤ most }
    requires fits { unsigned_abs sum + unsigned_abs coefficient * most ≤ 2 ^ 62 }
    ensures value { result ≡ sum +ℤ (coefficient *ℤ sample) }
    ensures size { unsigned_abs result ≤ unsigned_abs sum + unsigned_abs coefficient * most }
{
    sum + half_product(coefficient, sample)
}

/// The sums of the coefficients times the samples from the first, the second, the third and the fourth on, of samples
/// of 32 bits. Products of 64 bits would cost more here than those of 128.
pub(crate) fn four_half_sums(
    coefficients: &[i32],
    samples: &[i64],
    most: u64,
) -> (i64, i64, i64, i64)
    requires half { most < 2 ^ 31 }
    requires count { length samples.now ≡ length coefficients.now + 3 }
    requires within { AreWithin most samples.now }
    requires small { weight coefficients.now * most ≤ 2 ^ 62 }
    ensures first { IsSum coefficients.now samples.now 0 result.0 }
    ensures second { IsSum coefficients.now samples.now 1 result.1 }
    ensures third { IsSum coefficients.now samples.now 2 result.2 }
    ensures fourth { IsSum coefficients.now samples.now 3 result.3 }
{
    let mut a: i64 = 0;
    let mut b: i64 = 0;
    let mut c: i64 = 0;
    let mut d: i64 = 0;
    for k in 0..coefficients.len() {
        let tap = coefficients[k];
        a = plus_half(a, tap, samples[k], most);
        b = plus_half(b, tap, samples[k + 1], most);
        c = plus_half(c, tap, samples[k + 2], most);
        d = plus_half(d, tap, samples[k + 3], most);
    }
    (a, b, c, d)
}
