//! The second-order section of a biquad.

ghost use Rattle.std.specs.Prelude.{◌≡◌, ◌-◌, ◌*◌, ◌≤◌, ◌^◌, true, ◌+ℤ◌, ◌-ℤ◌, ◌*ℤ◌, ◌≤ℤ◌, neg_ℤ, pos, unsigned_abs};
ghost use Rattle.graph_model.specs.Rounding.{clamped};
ghost use Rattle.fixed_kernels.specs.Sections.{IsLight, IsSmallTail, next_out, next_tail};

use crate::narrow::{minus_narrow, plus_narrow, rs_narrow};
use crate::products::{minus_product, plus_product, product};
use graph_model::{clamp_to, rs};

/// A second-order section in direct form 1.
#[derive(Clone, Copy)]
pub(crate) struct Section {
    pub(crate) b0: i32,
    pub(crate) b1: i32,
    pub(crate) b2: i32,
    pub(crate) a1: i32,
    pub(crate) a2: i32,
    pub(crate) shift: u32,
    pub(crate) bits: u32,
}

/// The last two inputs and outputs of a channel, the newer ones first.
#[derive(Clone, Copy)]
pub(crate) struct Tail {
    pub(crate) x1: i64,
    pub(crate) x2: i64,
    pub(crate) y1: i64,
    pub(crate) y2: i64,
}

impl Tail {
    /// What is kept then, when a sample has come in and an output has gone out.
    #[inline]
    fn after(&self, sample: i64, output: i64) -> Tail
        ensures { result ≡ record { x1 = sample; x2 = self.now.x1; y1 = output; y2 = self.now.y1 } }
    {
        Tail {
            x1: sample,
            x2: self.x1,
            y1: output,
            y2: self.y1,
        }
    }
}

impl Section {
    /// The next output of a channel, which is kept with the sample that came in.
    pub(crate) fn step(&self, tail: &mut Tail, sample: i64) -> i64
        requires shift { self.now.shift ≤ 30 }
        requires bits { self.now.bits ≤ 40 }
        ensures value { result ≡ next_out self.now tail.old sample }
        ensures tail { tail.new ≡ next_tail self.now tail.old sample }
    {
        let output = within(rs(self.weigh(tail, sample), self.shift), limit(self.bits));
        *tail = tail.after(sample, output);
        output
    }

    /// Whether 64 bits hold each sum that steps by samples up to this make.
    pub(crate) fn is_narrow(&self, tail: &Tail, most: u64) -> bool
        requires bits { self.now.bits ≤ 40 }
        ensures light { result ≡ true → IsLight self.now most }
        ensures tail { result ≡ true → IsSmallTail self.now most tail.now }
    {
        self.is_light(most) && self.is_small(tail, most)
    }

    /// Whether 64 bits hold each sum of inputs up to this and of outputs.
    fn is_light(&self, most: u64) -> bool
        requires bits { self.now.bits ≤ 40 }
        ensures { result ≡ true → IsLight self.now most }
    {
        let out = most_of(self.bits);
        let ins = size_of(self.b0, most) + size_of(self.b1, most) + size_of(self.b2, most);
        ins + size_of(self.a1, out) + size_of(self.a2, out) <= 1 << 62
    }

    /// Whether what is kept has inputs up to this, and outputs that can be.
    fn is_small(&self, tail: &Tail, most: u64) -> bool
        requires bits { self.now.bits ≤ 40 }
        ensures { result ≡ true → IsSmallTail self.now most tail.now }
    {
        let out = most_of(self.bits);
        tail.x1.unsigned_abs() <= most
            && tail.x2.unsigned_abs() <= most
            && tail.y1.unsigned_abs() <= out
            && tail.y2.unsigned_abs() <= out
    }

    /// As `step`, in 64 bits.
    #[inline]
    pub(crate) fn step_narrow(&self, tail: &mut Tail, sample: i64, most: u64) -> i64
        requires shift { self.now.shift ≤ 30 }
        requires bits { self.now.bits ≤ 40 }
        requires light { IsLight self.now most }
        requires tail { IsSmallTail self.now most tail.old }
        requires within { unsigned_abs sample ≤ most }
        ensures value { result ≡ next_out self.now tail.old sample }
        ensures tail { tail.new ≡ next_tail self.now tail.old sample }
    {
        let sum = rs_narrow(self.weigh_narrow(tail, sample, most), self.shift);
        let clamped = within(sum as i128, limit(self.bits));
        *tail = tail.after(sample, clamped);
        clamped
    }

    /// As `weigh`, in 64 bits.
    #[inline]
    fn weigh_narrow(&self, tail: &Tail, sample: i64, most: u64) -> i64
        requires bits { self.now.bits ≤ 40 }
        requires light { IsLight self.now most }
        requires tail { IsSmallTail self.now most tail.now }
        requires within { unsigned_abs sample ≤ most }
        ensures value { result
            ≡ ((((self.now.b0 *ℤ sample) +ℤ (self.now.b1 *ℤ tail.now.x1)) +ℤ (self.now.b2 *ℤ tail.now.x2))
            -ℤ (self.now.a1 *ℤ tail.now.y1)) -ℤ (self.now.a2 *ℤ tail.now.y2) }
        ensures size { unsigned_abs result ≤ 2 ^ 62 }
    {
        let out = most_of(self.bits);
        let first = plus_narrow(0, self.b0, sample, most);
        let second = plus_narrow(first, self.b1, tail.x1, most);
        let third = plus_narrow(second, self.b2, tail.x2, most);
        let fourth = minus_narrow(third, self.a1, tail.y1, out);
        minus_narrow(fourth, self.a2, tail.y2, out)
    }

    /// The sum of the coefficients times the samples that they weigh.
    fn weigh(&self, tail: &Tail, sample: i64) -> i128
        ensures value { result
            ≡ ((((self.now.b0 *ℤ sample) +ℤ (self.now.b1 *ℤ tail.now.x1)) +ℤ (self.now.b2 *ℤ tail.now.x2))
            -ℤ (self.now.a1 *ℤ tail.now.y1)) -ℤ (self.now.a2 *ℤ tail.now.y2) }
        ensures size { unsigned_abs result ≤ 2 ^ 97 }
    {
        let ins = plus_product(product(self.b0, sample), self.b1, tail.x1);
        let ins = plus_product(ins, self.b2, tail.x2);
        minus_product(minus_product(ins, self.a1, tail.y1), self.a2, tail.y2)
    }
}

/// The greatest output.
fn limit(bits: u32) -> i64
    requires { bits ≤ 40 }
    ensures { result ≡ pos (2 ^ bits - 1) }
{
    let power = 1u64 << bits;
    (power - 1) as i64
}

/// The number nearest to the value that is no larger than the limit in size.
fn within(value: i128, limit: i64) -> i64
    requires positive { pos 0 ≤ℤ limit }
    ensures { result ≡ clamped value (neg_ℤ limit) limit }
{
    clamp_to(value, -limit, limit)
}

/// No output is larger.
#[inline]
fn most_of(bits: u32) -> u64
    requires { bits ≤ 40 }
    ensures { result ≡ 2 ^ bits }
{
    1 << bits
}

/// How large a coefficient times a number up to this can be.
#[inline]
fn size_of(coefficient: i32, most: u64) -> u128
    ensures value { result ≡ unsigned_abs coefficient * most }
    ensures size { result ≤ 2 ^ 95 }
{
    coefficient.unsigned_abs() as u128 * most as u128
}
