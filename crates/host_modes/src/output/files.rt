//! The output file, written as it is rendered.

ghost use Rattle.std.specs.Prelude.{◌≡◌, ◌≢◌, ◌*◌, ◌/◌, ◌%◌, ◌^◌, ◌<◌, ◌≤◌, ◌⊎◌, ℕ, [], Err as Fails, OnOk, OnErr, replicate};
ghost use Rattle.gh_outside.specs.Causes.{Rose};
ghost use Rattle.gh_outside.specs.Holdings.{HeldBytes, Holds, IsMissing, KeepsOthers};
ghost use Rattle.wav_pcm.specs.Heads.{most_data};
ghost use Rattle.engine_model.specs.Engines.{IsSame, Stands};
ghost use Rattle.streaming.specs.Appends.{IsAppended, IsPart, IsPartAppended};
ghost use Rattle.streaming.specs.Blocks.{all_frames, first_frames, AreLengths, HasRoom, MayStream};
ghost use Rattle.streaming.specs.declared.ends.StreamFault.TheVariants as Fault;
ghost use Rattle.graph_model.specs.declared.graph.Graph.{Graph as GraphValue};
ghost use Rattle.command_words.specs.Rendering.{render_said};
ghost use Rattle.host_modes.specs.Files.{part_of, whole_of, IsBroken, IsRenderingOf};
ghost use Rattle.host_modes.specs.Forms.{written_frames, IsForm, IsFormOf};

use crate::reading::recordings::Input;
use command_words::RenderRequest;
use engine::Engine;
use gh_outside::{Failed, Folder};
use std::thread::Threads;
use streaming::{Incoming, Outgoing, Room, StreamFault, stream};
use wav_pcm::head_bytes;

/// What is written: where its frames come from and where they go, the head of the file, and how many bytes its frames
/// have in all.
#[derive(Clone, Copy)]
pub(crate) struct Rendering<'a> {
    pub(crate) from: Incoming<'a>,
    pub(crate) to: Outgoing<'a>,
    pub(crate) head: [u8; 44],
    pub(crate) data_bytes: u64,
}

/// What a request has written, in the form of its output.
pub(crate) fn rendering_of<'a>(request: &RenderRequest<'a>, input: &Input) -> Rendering<'a>
    requires good { IsForm input.now.form }
    requires short { written_frames input.now.form * (input.now.form.channels * (input.now.form.bits / 8)) ≤ most_data }
    requires few { (input.now.form.frames ≤ 2 ^ 33) × (input.now.form.skipped ≤ input.now.form.frames) }
    requires silent { input.now.form.silent ≤ input.now.form.frames }
    ensures { (g : GraphValue) → IsFormOf (render_said request.now) g input.now.head input.now.form
        → IsRenderingOf (render_said request.now) g input.now.head result }
{
    let form = &input.form;
    let mut head = [0; 44];
    head_bytes(
        form.channels,
        form.rate,
        form.bits,
        form.written() as u64,
        &mut head,
    );
    Rendering {
        from: Incoming {
            name: request.input,
            head: input.head,
            silent: form.silent as u64,
        },
        to: Outgoing {
            name: request.output,
            channels: form.channels,
            bits: form.bits,
            skipped: form.skipped as u64,
        },
        head,
        data_bytes: form.data_bytes() as u64,
    }
}

/// Makes a file that holds a head.
fn begin<F: Folder>(folder: &mut F, name: &str, head: &[u8; 44]) -> Result<(), Failed>
    ensures others { KeepsOthers name.now (F.held folder.old) (F.held folder.new) }
    ensures ok { OnOk result (Holds name.now head.now (F.held folder.new)) }
    ensures part { IsPart name.now head.now (F.held folder.old) (F.held folder.new) }
    ensures failed { OnErr result (Rose (F.write_faults folder.old) (F.write_faults folder.new)) }
    ensures reads { F.read_faults folder.new ≡ F.read_faults folder.old }
    ensures writes { F.write_faults folder.old ≤ F.write_faults folder.new }
{
    folder.create(name)?;
    folder.append(name, head)
}

/// Appends a byte 0 after an odd number of bytes.
fn append_pad<F: Folder>(folder: &mut F, name: &str, count: u64) -> Result<(), Failed>
    ensures others { KeepsOthers name.now (F.held folder.old) (F.held folder.new) }
    ensures ok { OnOk result (IsAppended name.now (replicate (count % 2) 0) (F.held folder.old) (F.held folder.new)) }
    ensures part { OnErr result (IsPartAppended name.now (replicate (count % 2) 0) (F.held folder.old) (F.held folder.new)) }
    ensures failed { OnErr result (Rose (F.write_faults folder.old) (F.write_faults folder.new) ⊎ IsMissing name.now (F.held folder.old)) }
    ensures reads { F.read_faults folder.new ≡ F.read_faults folder.old }
    ensures writes { F.write_faults folder.old ≤ F.write_faults folder.new }
{
    if count % 2 == 0 {
        return Ok(());
    }
    folder.append(name, &[0])
}

/// Makes a file of its head, of the frames as they are rendered block by block, and of a byte 0 where their bytes are
/// odd in number. It takes no memory.
pub(crate) fn write_file<T: Threads + Sync, F: Folder>(
    rt: &T,
    folder: &mut F,
    rendering: &Rendering,
    lengths: &[u32],
    engine: &mut Engine,
    room: &mut Room,
) -> Result<(), StreamFault>
    requires may { MayStream rendering.now.from rendering.now.to engine.old (F.held folder.old) }
    requires lengths { AreLengths engine.old.block lengths.now }
    requires room { HasRoom rendering.now.from rendering.now.to engine.old.block room.old }
    requires new { Stands engine.old [] }
    ensures others { KeepsOthers rendering.now.to.name.now (F.held folder.old) (F.held folder.new) }
    ensures same { IsSame engine.old engine.new }
    ensures done { OnOk result (HeldBytes rendering.now.from.name.now (F.held folder.old)
        (λ file. Stands engine.new (first_frames rendering.now.from file (all_frames rendering.now.from))
        × Holds rendering.now.to.name.now (whole_of rendering.now engine.old.graph file) (F.held folder.new))) }
    ensures unread { result ≡ Fails Fault.Read
        → (k : ℕ) × (k < all_frames rendering.now.from) × HeldBytes rendering.now.from.name.now (F.held folder.old)
        (λ file. Stands engine.new (first_frames rendering.now.from file k)
        × Holds rendering.now.to.name.now (part_of rendering.now engine.old.graph file k) (F.held folder.new)) }
    ensures read_failed { result ≡ Fails Fault.Read → Rose (F.read_faults folder.old) (F.read_faults folder.new) }
    ensures broken { result ≡ Fails Fault.Write
        → (k : ℕ) × (k ≤ all_frames rendering.now.from) × HeldBytes rendering.now.from.name.now (F.held folder.old)
        (λ file. Stands engine.new (first_frames rendering.now.from file k)
        × IsBroken rendering.now engine.old.graph file k (F.held folder.old) (F.held folder.new)) }
    ensures write_failed { result ≡ Fails Fault.Write → Rose (F.write_faults folder.old) (F.write_faults folder.new) }
    ensures reads { F.read_faults folder.old ≤ F.read_faults folder.new }
    ensures writes { F.write_faults folder.old ≤ F.write_faults folder.new }
{
    let Rendering {
        from,
        to,
        head,
        data_bytes,
    } = rendering;
    match begin(folder, to.name, head) {
        Ok(()) => {}
        Err(Failed) => return Err(StreamFault::Write),
    }
    match stream(rt, folder, from, to, lengths, engine, room) {
        Ok(()) => {}
        Err(fault) => return Err(fault),
    }
    match append_pad(folder, to.name, *data_bytes) {
        Ok(()) => Ok(()),
        Err(Failed) => Err(StreamFault::Write),
    }
}
