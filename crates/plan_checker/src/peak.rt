//! The wave that needs all channels.

ghost use Rattle.std.specs.Prelude.{◌≡◌, ℕ, ◌<◌, ◌==◌, List, length, slice_index};
ghost use Rattle.std.specs.List.{position};
ghost use Rattle.plan_model.specs.Buffers.{need_of_wave};
ghost use Rattle.plan_model.specs.Rules.{IsPeak};
ghost use Rattle.plan_model.specs.declared.buffers.Life.{Life};
ghost use Rattle.plan_checker.specs.Answers.{Judges};

/// The first wave that needs that many channels.
fn first_needing(needs: &[u32], channels: u32) -> Option<usize>
    ensures { result ≡ position (λ n. n == channels) needs.now }
{
    needs.iter().position(|need| *need == channels)
}

/// The peak is the first wave that needs all channels.
pub(crate) fn peak(needs: &[u32], channels: u32, peak: u64) -> Option<u64>
    ensures { (lives : List Life) → ((s : ℕ) → s < length needs.now → slice_index needs.now s ≡ need_of_wave lives s)
        → Judges result (IsPeak lives (length needs.now) channels peak) (λ place. place ≡ peak) }
{
    let Some(first) = first_needing(needs, channels) else {
        return Some(peak);
    };
    if first as u64 == peak {
        return None;
    }
    Some(peak)
}
