//! The words that lines begin with.

ghost use Rattle.std.specs.Prelude.{◌≡◌};
ghost use Rattle.plan_text.specs.Lines.{word_text};

/// The word of a line, which says what its numbers are.
#[derive(Clone, Copy)]
pub(crate) enum Word {
    Plan,
    Latency,
    Path,
    At,
    Line,
    Total,
    Arc,
    Bound,
    Wave,
    Home,
    Channels,
    Peak,
    End,
}

impl Word {
    /// The word as it stands in a text.
    pub fn text(self) -> &'static str
        ensures { result.now ≡ word_text self }
    {
        match self {
            Word::Plan => "plan",
            Word::Latency => "latency",
            Word::Path => "path",
            Word::At => "at",
            Word::Line => "line",
            Word::Total => "total",
            Word::Arc => "arc",
            Word::Bound => "bound",
            Word::Wave => "wave",
            Word::Home => "home",
            Word::Channels => "channels",
            Word::Peak => "peak",
            Word::End => "end",
        }
    }
}
