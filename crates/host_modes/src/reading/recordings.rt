//! The input of a request.

ghost use Rattle.std.specs.Prelude.{◌≡◌, ◌+◌, ◌*◌, ◌/◌, ◌^◌, ◌≤◌, IfOk, IfErr};
ghost use Rattle.std.specs.Option.{IfSome};
ghost use Rattle.wav_pcm.specs.Samples.{IsSize};
ghost use Rattle.gh_outside.specs.Causes.{Rose};
ghost use Rattle.gh_outside.specs.Holdings.{IsPast};
ghost use Rattle.wav_pcm.specs.Files.{data_size, IsHead};
ghost use Rattle.wav_pcm.specs.Heads.{most_data};
ghost use Rattle.host_modes.specs.Causes.{IsInputEnd, Stops};
ghost use Rattle.host_modes.specs.Files.{IsInputOf};
ghost use Rattle.host_modes.specs.Forms.{written_frames, IsForm, IsFormOf};
ghost use Rattle.graph_model.specs.Graphs.{in_channels};
ghost use Rattle.command_words.specs.Rendering.{render_said};
ghost use Rattle.host_modes.specs.Ends.{IsOfFiles};
ghost use Rattle.host_modes.specs.Steps.{FindsHead, IsHeadEnd, IsTooLong};

use crate::ends::End;
use crate::output::forms::{Form, output_form};
use command_words::RenderRequest;
use connections::Checked;
use gh_outside::Folder;
use wav_pcm::{Head, HeadFault, MOST_DATA, WavFault, read_head};

/// The head of the input, and the form of the output.
#[derive(Clone, Copy)]
pub(crate) struct Input {
    pub(crate) head: Head,
    pub(crate) form: Form,
}

/// The head of the input.
fn head_under<F: Folder>(folder: &mut F, graph: &Checked, name: &str) -> Result<Head, End>
    ensures held { F.held folder.new ≡ F.held folder.old }
    ensures ok { IfOk result (λ h. FindsHead name.now graph.now h (F.held folder.old)) }
    ensures head { IfOk result (λ h. IsHead h × (h.channels ≡ in_channels graph.now)) }
    ensures there { IfOk result (λ h. ¬ IsPast name.now (h.from + data_size h) (F.held folder.old)) }
    ensures stops { IfErr result (Stops (IsHeadEnd name.now graph.now (F.held folder.old))
        (Rose (F.read_faults folder.old) (F.read_faults folder.new))) }
    ensures early { IfErr result IsOfFiles }
    ensures reads { F.read_faults folder.old ≤ F.read_faults folder.new }
    ensures writes { F.write_faults folder.new ≡ F.write_faults folder.old }
{
    match read_head(folder, name, graph.input_channels()) {
        Ok(head) => Ok(head),
        Err(HeadFault::Wav(fault)) => Err(End::Wav(fault)),
        Err(HeadFault::Failed) => Err(End::ReadFault),
    }
}

/// The form of the output, if it is not too long for a WAV file.
fn short_form(graph: &Checked, request: &RenderRequest, head: &Head) -> Result<Form, End>
    requires head { IsHead head.now }
    requires size { IfSome request.now.bits IsSize }
    ensures good { IfOk result IsForm }
    ensures ok { IfOk result (IsFormOf (render_said request.now) graph.now head.now) }
    ensures short { IfOk result (λ f. written_frames f * (f.channels * (f.bits / 8)) ≤ most_data) }
    ensures few { IfOk result (λ f. (f.frames ≤ 2 ^ 33) × (f.skipped ≤ f.frames)) }
    ensures long { IfErr result (IsTooLong (render_said request.now) graph.now head.now) }
    ensures early { IfErr result IsOfFiles }
{
    let form = output_form(graph, request, head);
    let bytes = form.data_bytes();
    if bytes > MOST_DATA as u128 {
        let bytes = bytes.min(u64::MAX as u128) as u64;
        return Err(End::Wav(WavFault::TooLong { bytes }));
    }
    Ok(form)
}

/// The head of the input of a request, which can be rendered, and the form of its output.
pub(crate) fn input_under<F: Folder>(
    folder: &mut F,
    graph: &Checked,
    request: &RenderRequest,
) -> Result<Input, End>
    requires size { IfSome request.now.bits IsSize }
    ensures held { F.held folder.new ≡ F.held folder.old }
    ensures good { IfOk result (λ i. IsForm i.form) }
    ensures form { IfOk result (λ i. IsFormOf (render_said request.now) graph.now i.head i.form) }
    ensures input { IfOk result (λ i. IsInputOf (render_said request.now) graph.now i.head (F.held folder.old)) }
    ensures short { IfOk result (λ i. written_frames i.form * (i.form.channels * (i.form.bits / 8)) ≤ most_data) }
    ensures few { IfOk result (λ i. (i.form.frames ≤ 2 ^ 33) × (i.form.skipped ≤ i.form.frames)) }
    ensures stops { IfErr result (Stops (IsInputEnd (render_said request.now) graph.now (F.held folder.old))
        (Rose (F.read_faults folder.old) (F.read_faults folder.new))) }
    ensures early { IfErr result IsOfFiles }
    ensures reads { F.read_faults folder.old ≤ F.read_faults folder.new }
    ensures writes { F.write_faults folder.new ≡ F.write_faults folder.old }
{
    let head = head_under(folder, graph, request.input)?;
    let form = short_form(graph, request, &head)?;
    Ok(Input { head, form })
}
