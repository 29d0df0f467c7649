//! The form of the output file.

ghost use Rattle.std.specs.Prelude.{◌≡◌, ◌*◌, ◌/◌, ◌<◌, ◌≤◌, ◌^◌};
ghost use Rattle.std.specs.Option.{IfSome};
ghost use Rattle.wav_pcm.specs.Samples.{IsSize};
ghost use Rattle.wav_pcm.specs.Files.{IsHead};
ghost use Rattle.host_modes.specs.Forms.{written_frames, IsForm, IsFormOf};
ghost use Rattle.command_words.specs.Rendering.{render_said};

use command_words::RenderRequest;
use connections::Checked;
use wav_pcm::Head;

/// How many samples the output has, and how they are written.
#[derive(Clone, Copy)]
pub(crate) struct Form {
    /// Samples of a frame, from 1 to 32.
    pub(crate) channels: u32,
    /// Frames for each second.
    pub(crate) rate: u32,
    /// Bits of a sample: 8, 16, 24 or 32.
    pub(crate) bits: u32,
    /// How many frames of silence come after the input.
    pub(crate) silent: u128,
    /// How many frames are rendered, of the input and of silence.
    pub(crate) frames: u128,
    /// How many of the first of them are left out.
    pub(crate) skipped: u128,
}

impl Form {
    /// How many frames are written.
    pub(crate) fn written(&self) -> u128
        requires { self.now.skipped ≤ self.now.frames }
        ensures { result ≡ written_frames self.now }
    {
        self.frames - self.skipped
    }

    /// The bytes of the frames that are written.
    pub(crate) fn data_bytes(&self) -> u128
        requires channels { self.now.channels ≤ 32 }
        requires bits { self.now.bits ≤ 32 }
        requires frames { self.now.frames < 2 ^ 66 }
        requires skipped { self.now.skipped ≤ self.now.frames }
        ensures { result ≡ written_frames self.now * (self.now.channels * (self.now.bits / 8)) }
    {
        self.written() * (self.channels * (self.bits / 8)) as u128
    }
}

/// The form of the output of a request, for the head of its input.
pub(crate) fn output_form(graph: &Checked, request: &RenderRequest, head: &Head) -> Form
    requires head { IsHead head.now }
    requires size { IfSome request.now.bits IsSize }
    ensures good { IsForm result }
    ensures form { IsFormOf (render_said request.now) graph.now head.now result }
    ensures few { result.frames < 2 ^ 66 }
    ensures skipped { (result.skipped ≤ result.silent) × (result.skipped ≤ 2 ^ 26) }
{
    let latency = graph.latency() as u128;
    let silent = latency + request.tail as u128;
    Form {
        channels: graph.output_channels(),
        rate: head.rate,
        bits: request.bits.unwrap_or(head.bits),
        silent,
        frames: head.frames as u128 + silent,
        skipped: if request.compensate { latency } else { 0 },
    }
}
