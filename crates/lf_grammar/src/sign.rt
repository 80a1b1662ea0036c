//! Signs.

ghost use Rattle.std.specs.Prelude.{◌≡◌};
ghost use Rattle.lf_grammar.specs.Signs.{single, pair, opens, closes};

/// A sign of one character or two.
#[derive(Clone, Copy, Debug, PartialEq, Eq)]
pub enum Sign {
    /// `..`
    To,
    /// `!=`
    NotEqual,
    /// `<=`
    AtMost,
    /// `>=`
    AtLeast,
    /// `-`
    Minus,
    /// `+`
    Plus,
    /// `=`
    Equal,
    /// `<`
    Less,
    /// `>`
    More,
    /// `(`
    OpenRound,
    /// `)`
    CloseRound,
    /// `{`
    OpenCurly,
    /// `}`
    CloseCurly,
    /// `[`
    OpenSquare,
    /// `]`
    CloseSquare,
    /// `,`
    Comma,
    /// `:`
    Colon,
    /// `|`
    Bar,
}

impl Sign {
    /// The sign that a byte is.
    pub(crate) fn single(byte: u8) -> Option<Sign>
        ensures { result ≡ single byte }
    {
        match byte {
            b'-' => Some(Sign::Minus),
            b'+' => Some(Sign::Plus),
            b'=' => Some(Sign::Equal),
            b'<' => Some(Sign::Less),
            b'>' => Some(Sign::More),
            b'(' => Some(Sign::OpenRound),
            b')' => Some(Sign::CloseRound),
            b'{' => Some(Sign::OpenCurly),
            b'}' => Some(Sign::CloseCurly),
            b'[' => Some(Sign::OpenSquare),
            b']' => Some(Sign::CloseSquare),
            b',' => Some(Sign::Comma),
            b':' => Some(Sign::Colon),
            b'|' => Some(Sign::Bar),
            _ => None,
        }
    }

    /// The sign that two bytes are together.
    pub(crate) fn pair(first: u8, second: u8) -> Option<Sign>
        ensures { result ≡ pair first second }
    {
        match first {
            b'.' => if second == b'.' { Some(Sign::To) } else { None },
            b'!' => if second == b'=' {
                Some(Sign::NotEqual)
            } else {
                None
            },
            b'<' => if second == b'=' {
                Some(Sign::AtMost)
            } else {
                None
            },
            b'>' => if second == b'=' {
                Some(Sign::AtLeast)
            } else {
                None
            },
            _ => None,
        }
    }

    /// Whether it opens a bracket.
    pub(crate) fn opens(self) -> bool
        ensures { result ≡ opens self }
    {
        matches!(self, Sign::OpenRound | Sign::OpenCurly | Sign::OpenSquare)
    }

    /// Whether it closes one.
    pub(crate) fn closes(self) -> bool
        ensures { result ≡ closes self }
    {
        matches!(
            self,
            Sign::CloseRound | Sign::CloseCurly | Sign::CloseSquare
        )
    }
}
