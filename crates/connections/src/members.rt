//! The ranges of a node's members.

ghost use Rattle.std.specs.Prelude.{◌≡◌, ◌*◌, ◌^◌, ◌==◌, ◌&&◌, ◌∷◌, [], length, nat_lt, unsigned_abs};
ghost use Rattle.std.specs.List.{list_all};
ghost use Rattle.graph_model.specs.Members.{is_from, is_small, tests_of, first_failing, bad_member};
ghost use Rattle.graph_model.specs.declared.kind.Kind.TheVariants.{Fir, Biquad};

use graph_model::{Kind, Member, Node};

/// Whether a number is from `low` to `high`.
fn is_from(low: u64, high: u64, number: u64) -> bool
    ensures { result ≡ is_from low high number }
{
    low <= number && number <= high
}

/// Whether there are 1 to 32 channels.
fn is_channels(channels: u32) -> bool
    ensures { result ≡ is_from 1 32 channels }
{
    is_from(1, 32, channels as u64)
}

/// Whether a gain is at most 2^20 in size.
fn is_gain(gain: i32) -> bool
    ensures { result ≡ is_small (2 ^ 20) gain }
{
    gain.unsigned_abs() <= 1 << 20
}

/// Whether each gain is in range.
fn all_gains(gains: &[i32]) -> bool
    ensures { result ≡ list_all (is_small (2 ^ 20)) gains.now }
{
    gains.iter().all(|gain| is_gain(*gain))
}

/// Whether a mixer has a gain for each input and each output, and each is in range.
fn are_gains(ins: u32, outs: u32, gains: &[i32]) -> bool
    ensures { result ≡ ((length gains.now == ins * outs) && list_all (is_small (2 ^ 20)) gains.now) }
{
    gains.len() == ins as usize * outs as usize && all_gains(gains)
}

/// Whether a tap is below 2^24 in size.
fn is_tap(tap: i32) -> bool
    ensures { result ≡ nat_lt (unsigned_abs tap) (2 ^ 24) }
{
    tap.unsigned_abs() < 1 << 24
}

/// Whether each tap is in range.
fn all_taps(taps: &[i32]) -> bool
    ensures { result ≡ list_all (λ h. nat_lt (unsigned_abs h) (2 ^ 24)) taps.now }
{
    taps.iter().all(|tap| is_tap(*tap))
}

/// Whether there are 1 to 4096 taps, each in range.
fn are_taps(taps: &[i32]) -> bool
    ensures { result ≡ (is_from 1 4096 (length taps.now) && list_all (λ h. nat_lt (unsigned_abs h) (2 ^ 24)) taps.now) }
{
    is_from(1, 4096, taps.len() as u64) && all_taps(taps)
}

/// Whether a coefficient is below 2^31 in size.
fn is_coefficient(coefficient: i32) -> bool
    ensures { result ≡ nat_lt (unsigned_abs coefficient) (2 ^ 31) }
{
    coefficient.unsigned_abs() < 1 << 31
}

/// The first member whose test fails.
fn first_failing(tests: &[(Member, bool)]) -> Option<Member>
    ensures { result ≡ first_failing tests.now }
{
    for (member, passes) in tests {
        if !*passes {
            return Some(*member);
        }
    }
    None
}

/// The first member of a kind that is out of range, in the order of its record.
fn out_of_range(kind: &Kind) -> Option<Member>
    ensures { result ≡ first_failing (tests_of kind.now) }
{
    match kind {
        Kind::Input { channels } | Kind::Output { channels } => {
            first_failing(&[(Member::Channels, is_channels(*channels))])
        }
        Kind::Gain { channels, gain } => first_failing(&[
            (Member::Channels, is_channels(*channels)),
            (Member::Gain, is_gain(*gain)),
        ]),
        Kind::Mixer { ins, outs, gains } => first_failing(&[
            (Member::Ins, is_channels(*ins)),
            (Member::Outs, is_channels(*outs)),
            (Member::Gains, are_gains(*ins, *outs, gains.as_slice())),
        ]),
        Kind::Fir {
            channels,
            taps,
            shift,
            latency,
        } => first_failing(&[
            (Member::Channels, is_channels(*channels)),
            (Member::Taps, are_taps(taps.as_slice())),
            (Member::Shift, *shift <= 30),
            (Member::Latency, (*latency as usize) < taps.len()),
        ]),
        Kind::Biquad {
            channels,
            b0,
            b1,
            b2,
            a1,
            a2,
            shift,
            bits,
        } => first_failing(&[
            (Member::Channels, is_channels(*channels)),
            (Member::B0, is_coefficient(*b0)),
            (Member::B1, is_coefficient(*b1)),
            (Member::B2, is_coefficient(*b2)),
            (Member::A1, is_coefficient(*a1)),
            (Member::A2, is_coefficient(*a2)),
            (Member::Shift, is_from(1, 30, *shift as u64)),
            (Member::Bits, is_from(16, 40, *bits as u64)),
        ]),
        Kind::Limiter {
            channels,
            threshold,
            lookahead,
        } => first_failing(&[
            (Member::Channels, is_channels(*channels)),
            (Member::Threshold, is_from(1, 1 << 46, *threshold)),
            (Member::Lookahead, is_from(1, 8192, *lookahead as u64)),
        ]),
        Kind::Delay { channels, samples } => first_failing(&[
            (Member::Channels, is_channels(*channels)),
            (Member::Samples, is_from(1, 1 << 20, *samples as u64)),
        ]),
        Kind::Insert { channels, samples } => first_failing(&[
            (Member::Channels, is_channels(*channels)),
            (Member::Samples, *samples <= 1 << 20),
        ]),
    }
}

/// The first member of a node that is out of range, its uid before the rest.
pub(crate) fn bad_member(node: &Node) -> Option<Member>
    ensures { result ≡ bad_member node.now }
{
    if !is_from(1, 2_147_483_647, node.uid.0 as u64) {
        return Some(Member::Uid);
    }
    out_of_range(&node.kind)
}
