//! Where things stand in a picture, in its units, of which a browser makes a pixel each.

/// How far from the left edge the first column stands: the numbers of the steps have room there.
const LEFT: u32 = 56;

/// How far from the upper edge the first line of the title stands.
const TITLE: u32 = 24;

/// How far two lines of the title are apart.
const TITLE_LINE: u32 = 17;

/// How far beneath the last line of the title the line of step 0 stands: the heads of the columns have room there.
const HEADS: u32 = 60;

/// How wide a character of the title is.
const TITLE_CHARACTER: u32 = 8;

/// How far words stand from the edges.
const MARGIN: u32 = 14;

/// How far the lines of two steps are apart.
const ROW: u32 = 30;

/// How far beneath the last step the first line of the legend stands: what arrives later has room there.
const LEGEND: u32 = 44;

/// How far two lines of the legend are apart.
const LEGEND_LINE: u32 = 14;

/// How wide a character of a label is.
const CHARACTER: u32 = 6;

/// The narrowest column.
const NARROWEST: u32 = 96;

/// How wide all columns may be together, where none would be too narrow.
const BREADTH: u32 = 2400;

/// The narrowest picture: the legend has room in it.
const LEAST_WIDTH: u32 = 440;

/// A place in a picture.
#[derive(Clone, Copy)]
pub(crate) struct Place {
    pub(crate) x: u32,
    pub(crate) y: u32,
}

impl Place {
    /// The place on the way to another, so many of so many parts of it from here.
    pub(crate) fn towards(&self, other: Place, parts: u32, of: u32) -> Place {
        Place {
            x: between(self.x, other.x, parts, of),
            y: between(self.y, other.y, parts, of),
        }
    }
}

/// The number so many of so many parts of the way from one to another.
fn between(from: u32, to: u32, parts: u32, of: u32) -> u32 {
    let way = from.abs_diff(to).saturating_mul(parts) / of.max(1);
    if from <= to {
        from.saturating_add(way)
    } else {
        from.saturating_sub(way)
    }
}

/// The columns and rows of a picture.
#[derive(Clone, Copy)]
pub(crate) struct Layout {
    nodes: u32,
    horizon: u32,
    /// How far two columns are apart.
    pitch: u32,
    /// How many lines the title has.
    lines: u32,
}

impl Layout {
    /// That of so many nodes and steps, with labels of up to so many characters, and a title of one line.
    pub(crate) fn new(nodes: u32, horizon: u32, longest: u32) -> Layout {
        let widest = (BREADTH / nodes.max(1)).max(NARROWEST);
        Layout {
            nodes,
            horizon,
            pitch: longest
                .saturating_mul(CHARACTER)
                .saturating_add(26)
                .max(NARROWEST)
                .min(widest),
            lines: 1,
        }
    }

    /// The same with a title of so many lines.
    pub(crate) fn with_title(self, lines: u32) -> Layout {
        Layout { lines, ..self }
    }

    /// How many characters of the title have room in a line.
    pub(crate) fn title_room(&self) -> u32 {
        self.width().saturating_sub(2 * MARGIN) / TITLE_CHARACTER
    }

    /// Where a line of the title begins, of lines from 0.
    pub(crate) fn title(&self, line: u32) -> Place {
        Place {
            x: MARGIN,
            y: TITLE.saturating_add(line.saturating_mul(TITLE_LINE)),
        }
    }

    /// Where a line of the legend begins, of lines from 0.
    pub(crate) fn legend(&self, line: u32) -> Place {
        let last = self.place(0, self.horizon).y.saturating_add(LEGEND);
        Place {
            x: MARGIN,
            y: last.saturating_add(line.saturating_mul(LEGEND_LINE)),
        }
    }

    /// The place of a node after a step.
    pub(crate) fn place(&self, node: u32, step: u32) -> Place {
        Place {
            x: LEFT.saturating_add(node.saturating_mul(self.pitch)),
            y: self.top().saturating_add(step.saturating_mul(ROW)),
        }
    }

    /// The height of the line of step 0.
    fn top(&self) -> u32 {
        let last = self.title(self.lines.saturating_sub(1));
        last.y.saturating_add(HEADS)
    }

    /// The height at which what comes after the last step ends.
    pub(crate) fn floor(&self) -> u32 {
        self.place(0, self.horizon).y.saturating_add(ROW / 2)
    }

    pub(crate) fn width(&self) -> u32 {
        self.place(self.nodes, 0).x.max(LEAST_WIDTH)
    }

    /// With a legend of so many lines.
    pub(crate) fn height(&self, legend: u32) -> u32 {
        self.legend(legend).y
    }

    /// How far two columns are apart.
    pub(crate) fn pitch(&self) -> u32 {
        self.pitch
    }

    /// How far two steps are apart.
    pub(crate) fn row(&self) -> u32 {
        ROW
    }

    /// How many characters of a label have room in a column.
    pub(crate) fn room(&self) -> u32 {
        self.pitch.saturating_sub(20) / CHARACTER
    }
}
