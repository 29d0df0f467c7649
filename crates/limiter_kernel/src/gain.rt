//! Scales and gains, in units of 2^-30.

ghost use Rattle.std.specs.Prelude.{◌≡◌, ℕ, ◌+◌, ◌*◌, ◌/◌, ◌^◌, ◌<◌, ◌≤◌, length, max, pos, slice_index_or, unsigned_abs};
ghost use Rattle.graph_model.specs.Limiters.{peak};
ghost use Rattle.graph_model.specs.Blocks.{planar_frame};
ghost use Rattle.limiter_kernel.specs.Gains.{at_gain, scale_to};

/// The scale that leaves a frame as it is.
pub(crate) const UNITY: u64 = 1 << 30;

/// Writes the peak of each frame of a block: the greatest size of a sample over its channels.
pub(crate) fn write_peaks(channels: usize, ins: &[i64], peaks: &mut [u64])
    requires { length ins.now ≡ channels * length peaks.old }
    ensures { (t : ℕ) → t < length peaks.old →
        slice_index_or peaks.new t 0 ≡ peak (planar_frame channels (length peaks.old) ins.now t) }
{
    let frames = peaks.len();
    peaks.fill(0);
    for c in 0..channels {
        let from = c * frames;
        raise(peaks, &ins[from..from + frames]);
    }
}

/// Raises each peak to the size of a sample.
fn raise(peaks: &mut [u64], row: &[i64])
    requires { length row.now ≡ length peaks.old }
    ensures { (t : ℕ) → t < length peaks.old →
        slice_index_or peaks.new t 0 ≡ max (slice_index_or peaks.old t 0) (unsigned_abs (slice_index_or row.now t (pos 0))) }
{
    for t in 0..peaks.len() {
        peaks[t] = peaks[t].max(row[t].unsigned_abs());
    }
}

/// The scale that brings a peak down to the threshold, rounded down; one where it is not above it.
pub(crate) fn scale_of(threshold: u64, peak: u64) -> u64
    ensures value { result ≡ scale_to threshold peak }
    ensures within { result ≤ 2 ^ 30 }
{
    if peak <= threshold {
        UNITY
    } else {
        share(threshold, peak)
    }
}

/// The threshold over the peak, in units of 2^-30.
fn share(threshold: u64, peak: u64) -> u64
    requires { threshold < peak }
    ensures { result ≡ threshold * 2 ^ 30 / peak }
{
    if threshold < 1 << 34 {
        threshold * UNITY / peak
    } else {
        (threshold as u128 * UNITY as u128 / peak as u128) as u64
    }
}

/// Turns each sample of a row down by a gain, and rounds it toward zero. None is larger than `most`.
pub(crate) fn limit_row(gains: &[u64], most: u64, row: &mut [i64])
    requires count { length row.old ≡ length gains.now }
    requires gains { (t : ℕ) → t < length gains.now → slice_index_or gains.now t 0 ≤ 2 ^ 30 }
    requires most { most ≤ 2 ^ 46 }
    requires small { (t : ℕ) → t < length gains.now → unsigned_abs (slice_index_or row.old t (pos 0)) ≤ most }
    ensures { (t : ℕ) → t < length gains.now →
        slice_index_or row.new t (pos 0) ≡ at_gain (slice_index_or row.old t (pos 0)) (slice_index_or gains.now t 0) }
{
    if most <= 1 << 32 {
        limit_narrow(gains, row);
    } else {
        limit_wide(gains, row);
    }
}

/// The same in 64 bits.
fn limit_narrow(gains: &[u64], row: &mut [i64])
    requires count { length row.old ≡ length gains.now }
    requires gains { (t : ℕ) → t < length gains.now → slice_index_or gains.now t 0 ≤ 2 ^ 30 }
    requires small { (t : ℕ) → t < length gains.now → unsigned_abs (slice_index_or row.old t (pos 0)) ≤ 2 ^ 32 }
    ensures { (t : ℕ) → t < length gains.now →
        slice_index_or row.new t (pos 0) ≡ at_gain (slice_index_or row.old t (pos 0)) (slice_index_or gains.now t 0) }
{
    for t in 0..gains.len() {
        row[t] = narrow_sample(row[t], gains[t]);
    }
}

/// The same in 128 bits.
fn limit_wide(gains: &[u64], row: &mut [i64])
    requires count { length row.old ≡ length gains.now }
    requires gains { (t : ℕ) → t < length gains.now → slice_index_or gains.now t 0 ≤ 2 ^ 30 }
    requires small { (t : ℕ) → t < length gains.now → unsigned_abs (slice_index_or row.old t (pos 0)) ≤ 2 ^ 46 }
    ensures { (t : ℕ) → t < length gains.now →
        slice_index_or row.new t (pos 0) ≡ at_gain (slice_index_or row.old t (pos 0)) (slice_index_or gains.now t 0) }
{
    for t in 0..gains.len() {
        row[t] = wide_sample(row[t], gains[t]);
    }
}

/// A sample times a gain, rounded toward zero.
fn narrow_sample(sample: i64, gain: u64) -> i64
    requires gain { gain ≤ 2 ^ 30 }
    requires small { unsigned_abs sample ≤ 2 ^ 32 }
    ensures { result ≡ at_gain sample gain }
{
    sample * gain as i64 / UNITY as i64
}

/// The same in 128 bits.
fn wide_sample(sample: i64, gain: u64) -> i64
    requires gain { gain ≤ 2 ^ 30 }
    requires small { unsigned_abs sample ≤ 2 ^ 46 }
    ensures { result ≡ at_gain sample gain }
{
    (sample as i128 * gain as i128 / UNITY as i128) as i64
}
