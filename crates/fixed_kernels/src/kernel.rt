//! What every kernel promises.

ghost use Rattle.fixed_kernels.specs.Kernels.{IsNextBlock, IsNextFrame, TakesBlock, TakesFrame};
ghost use Rattle.fixed_kernels.specs.Streams.{HasCausalStream, HasQuietStream};
ghost use Rattle.graph_model.specs.Kernels.{KernelState};

/// A machine that takes the frames of a stream by blocks, and keeps what it needs of those that came. Samples are whole
/// numbers, at most as large in size as their channels' bounds. A call takes no memory and is never refused.
pub trait Kernel {
    /// Its kind, the bounds of its samples, and what it keeps of the history that it stands for.
    ghost state: { Self → KernelState };

    /// Takes a block of frames, in which the sample of channel c in frame t stands at `c * frames + t`, and writes to
    /// `outs` the frames that go out then, in the same order. It is as so many calls of [`Kernel::frame`].
    fn process_block(&mut self, frames: usize, ins: &[i64], outs: &mut [i64])
        requires { TakesBlock (state self.old) frames ins.now outs.old }
        ensures { IsNextBlock (state self.old) (state self.new) frames ins.now outs.new };

    /// Takes the frame `ins`, one sample for each input channel, and writes to `outs` the frame that goes out then, one
    /// sample for each output channel.
    fn frame(&mut self, ins: &[i64], outs: &mut [i64])
        requires { TakesFrame (state self.old) ins.now outs.old }
        ensures { IsNextFrame (state self.old) (state self.new) ins.now outs.new }
    {
        self.process_block(1, ins, outs);
    }

    /// The stream of a prefix is a prefix of the stream.
    ghost causal: { (kernel : Self) → HasCausalStream (state kernel) };

    /// Frames of zeros at the start give as many frames of zeros, and then the stream of the rest.
    ghost quiet: { (kernel : Self) → HasQuietStream (state kernel) };
}
