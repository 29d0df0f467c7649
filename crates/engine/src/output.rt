//! The frames that go out.

ghost use Rattle.std.specs.Prelude.{◌≡◌, ℕ, ◌+◌, ◌-◌, ◌*◌, ◌<◌, ◌≤◌, ◌⊎◌, pos, [], length, reverse, slice_index_or};
ghost use Rattle.players.specs.declared.leaving.Leaving.{Leaving as Exits};
ghost use Rattle.players.specs.declared.playing.Server.TheVariants.{Exit};
ghost use Rattle.engine.specs.Outputs.{CanLeave, HasWritten, HasWrittenRow};
ghost use Rattle.engine.specs.Views.{began};

use delay_lines::Line;
use players::{Leaving, Player, Server};
use pool_waves::Job;

/// Writes the newest samples of a line, the oldest of them first, to one channel of the frames.
fn write_row(line: &Line, frames: usize, channel: usize, channels: usize, output: &mut [i64])
    requires channel { channel < channels }
    requires held { frames ≤ length line.now }
    requires room { frames * channels ≤ length output.old }
    ensures { HasWrittenRow line.now frames channel channels output.old output.new }
{
    for k in 0..frames {
        output[k * channels + channel] = line.before(frames - k);
    }
}

/// Writes the newest frames that came to the exit, the oldest of them first.
fn write_frames(leaving: &Leaving, frames: usize, channels: usize, output: &mut [i64])
    requires lines { CanLeave frames channels leaving.now }
    requires room { frames * channels ≤ length output.old }
    ensures { HasWritten frames channels leaving.now output.new }
{
    for channel in 0..channels {
        write_row(&leaving.lines[channel], frames, channel, channels, output);
    }
}

/// Writes the newest frames of the job that stands at the exit.
pub(crate) fn leave(job: &Job<Player>, frames: usize, channels: usize, output: &mut [i64])
    requires lines { (e : Exits) → job.now.part.server ≡ Exit e → CanLeave frames channels e }
    requires room { frames * channels ≤ length output.old }
    ensures { (e : Exits) → job.now.part.server ≡ Exit e → HasWritten frames channels e output.new }
{
    match &job.part.server {
        Server::Exit(leaving) => write_frames(leaving, frames, channels, output),
        Server::Entry => {}
        Server::Between(_) => {}
    }
}

/// From here on the exit counts frames.
fn begin(job: &mut Job<Player>, frames: u64)
    ensures { job.new ≡ began frames job.old }
{
    match &mut job.part.server {
        Server::Exit(leaving) => {
            leaving.start = frames;
        }
        Server::Entry => {}
        Server::Between(_) => {}
    }
}

/// From here on every exit counts frames.
pub(crate) fn begin_all(jobs: &mut [Job<Player>], frames: u64)
    ensures len { length jobs.new ≡ length jobs.old }
    ensures each { (i : ℕ) (d : _) → i < length jobs.old → slice_index_or jobs.new i d ≡ began frames (slice_index_or jobs.old i d) }
{
    for i in 0..jobs.len() {
        begin(&mut jobs[i], frames);
    }
}
