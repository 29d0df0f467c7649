//! Frames in memory.

ghost use Rattle.std.specs.Prelude.{◌≡◌, ◌≤◌, ◌<◌, ◌+◌, ◌*◌, ◌^◌, length};
ghost use Rattle.graph_model.specs.Bounds.{AreUpTo};
ghost use Rattle.graph_model.specs.Graphs.{in_channels, out_channels};
ghost use Rattle.graph_model.specs.Sound.{IsSound};
ghost use Rattle.engine_model.specs.Cuttings.{HasRendered};

use engine::Engine;
use fork_join::Open;
use std::thread::Threads;

/// Renders so many frames, which are interleaved with `ins` samples each, in blocks of up to `block` frames, and leaves
/// as many in `output`, with `outs` samples each. It takes no memory.
pub fn render_whole<T: Threads + Sync>(
    rt: &T,
    engine: &mut Engine,
    block: usize,
    frames: usize,
    ins: usize,
    outs: usize,
    input: &[i64],
    output: &mut [i64],
)
    requires sound { IsSound engine.old.graph }
    requires some { 1 ≤ block }
    requires most { block ≤ engine.old.block }
    requires ins { ins ≡ in_channels engine.old.graph }
    requires outs { outs ≡ out_channels engine.old.graph }
    requires comes { length input.now ≡ frames * ins }
    requires goes { length output.old ≡ frames * outs }
    requires small { AreUpTo (2 ^ 31) input.now }
    requires count { engine.old.frames + frames < 2 ^ 63 }
    ensures { HasRendered engine.old input.now output.new engine.new }
{
    let mut done = 0;
    while done < frames {
        let end = done + block.min(frames - done);
        let came = &input[done * ins..end * ins];
        let went = &mut output[done * outs..end * outs];
        engine.render(rt, &Open, came, went);
        done = end;
    }
}
