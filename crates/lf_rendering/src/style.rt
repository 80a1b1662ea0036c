//! The looks of a picture.

use std::alloc::AllocError;

/// What is drawn, each with a look of its own.
#[derive(Clone, Copy, PartialEq, Eq)]
pub(crate) enum Look {
    /// A line of the title.
    Title,
    /// The name of a node, above its column.
    Head,
    /// The number of a step.
    Step,
    /// A rim around words, in the colour of the ground, beneath them: lines end there.
    Rim,
    /// The words of a state.
    State,
    /// The words of notes.
    Say,
    /// What has stopped a node.
    Stopped,
    /// What the signs stand for.
    Legend,
    /// What the outcome rests on.
    Rest,
    /// A step at which a node is down.
    Down,
    /// The line of a step.
    Row,
    /// The line of a node.
    Life,
    /// A note that is heard.
    Sent,
    /// A note that nobody takes.
    Gone,
    /// A note that is on its way after the last step.
    Late,
    /// A note that is omitted, broken off with a cross.
    Cut,
    /// Where a state begins.
    Dot,
    /// A point at which the outcome looks.
    Asked,
    /// One by which it is first seen to fail.
    Fails,
}

impl Look {
    /// Opens a group of elements that have this look.
    pub(crate) fn open(self, text: &mut String) -> Result<(), AllocError> {
        writeln!(text, "<g {}>", self.attributes())
    }

    /// Its class, and its colours and lines on light ground as attributes that every program knows which draws SVG documents.
    fn attributes(self) -> &'static str {
        match self {
            Look::Title => "class='title' font-size='13' font-weight='bold'",
            Look::Head => "class='head' font-size='12' font-weight='bold' text-anchor='middle'",
            Look::Step => "class='step' fill='#5d6875' text-anchor='end'",
            Look::Rim => {
                "class='rim' aria-hidden='true' fill='none' stroke='#fff' stroke-width='3' stroke-linejoin='round'"
            }
            Look::State => "class='state'",
            Look::Say => "class='say' fill='#2c5aa0'",
            Look::Stopped => "class='stopped' fill='#c8102e' font-weight='bold'",
            Look::Legend => "class='legend'",
            Look::Rest => "class='rest' fill='#e4f1e4'",
            Look::Down => "class='down' fill='#d4d8dd'",
            Look::Row => "class='row' fill='none' stroke='#e3e7ec'",
            Look::Life => "class='life' fill='none' stroke='#8b96a3'",
            Look::Sent => "class='sent' fill='none' stroke='#6f97d6' marker-end='url(#sent)'",
            Look::Gone => {
                "class='gone' fill='none' stroke='#b06a00' stroke-dasharray='4 3' marker-end='url(#gone)'"
            }
            Look::Late => "class='gone' fill='none' stroke='#b06a00' stroke-dasharray='4 3'",
            Look::Cut => "class='cut' fill='none' stroke='#c8102e' stroke-width='1.6'",
            Look::Dot => "class='dot' fill='#8b96a3'",
            Look::Asked => "class='asked' fill='none' stroke='#2b8a3e' stroke-width='1.6'",
            Look::Fails => "class='fails' fill='none' stroke='#c8102e' stroke-width='2.6'",
        }
    }
}

/// Closes a group.
pub(crate) fn close(text: &mut String) -> Result<(), AllocError> {
    text.push_str("</g>\n")
}

/// What stands for the whole picture: its colours on dark ground, for programs that know of that, and the heads of arrows.
pub(crate) const STYLE: &str = "<style>
@media(prefers-color-scheme:dark){
svg{fill:#e4e8ed}.ground{fill:#14181d}.rest{fill:#1d3222}.down{fill:#3a4149}.rim{stroke:#14181d}.row{stroke:#262c34}
.life{stroke:#6d7885}.dot{fill:#6d7885}.step{fill:#98a3b0}
.say{fill:#9dbff5}.sent{stroke:#5f86c4}.heard{fill:#5f86c4}.gone{stroke:#e0a040}.cut,.fails{stroke:#ff6b7d}.stopped{fill:#ff8593}.asked{stroke:#5fc277}
}
</style>
<defs><marker id='sent' viewBox='0 0 8 8' refX='8' refY='4' markerWidth='7' markerHeight='7' orient='auto'>
<path class='heard' fill='#6f97d6' d='M0 0L8 4L0 8z'/></marker>
<marker id='gone' viewBox='0 0 8 8' refX='4' refY='4' markerWidth='8' markerHeight='8' orient='auto'>
<path class='gone' fill='none' stroke='#b06a00' stroke-width='2' d='M4 0V8'/></marker></defs>
";
