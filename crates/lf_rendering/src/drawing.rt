//! The picture as a whole.

ghost use Rattle.std.specs.Prelude.{◌<◌, ◌≤◌};
ghost use Rattle.lf_sim.specs.Settings.{IsRun, horizon_of, nodes_of, world_of};

use crate::arrows::Arrows;
use crate::columns::Column;
use crate::escape::push_words;
use crate::labels::Saying;
use crate::layout::Layout;
use crate::marks::{Mark, Marks};
use crate::style::{Look, STYLE, close};
use crate::title::{lines_of, push_title, title};
use lf_cone::sharp;
use lf_outcome::{Formula, Reach, evidence, holds};
use lf_sim::{Run, Setting};
use lf_trace::Worded;
use std::alloc::{AllocError, Global};

/// How many lines the legend has.
const LEGEND_LINES: u32 = 3;

/// A run of a setting, to be drawn.
#[derive(Drop)]
struct Drawing<'a, M: Worded> {
    setting: &'a Setting<M>,
    run: &'a Run<M>,
    layout: Layout,
}

/// The picture of a run of this setting, an SVG document: its title has the set of faults and whether the run reaches the outcome. The error is that
/// memory has run out.
pub fn picture<M: Worded>(
    alloc: Global,
    setting: &Setting<M>,
    formula: &Formula<M::Fact>,
    run: &Run<M>,
) -> Result<String, AllocError>
    requires { IsRun (world_of setting.now) run.now }
{
    let longest = longest_label(alloc, setting, run)?;
    let columns = Layout::new(run.nodes(), run.horizon(), longest);
    let reaches = holds(setting, formula, run);
    let title = title(alloc, &run.set(), reaches, columns.title_room())?;
    let drawing = Drawing {
        setting,
        run,
        layout: columns.with_title(lines_of(title.as_str())),
    };
    let reach = rest(alloc, setting, formula, run)?;
    let mut text = String::new(alloc);
    drawing.push_head(title.as_str(), &mut text)?;
    drawing.push_grounds(&reach, &mut text)?;
    drawing.push_rows(&mut text)?;
    drawing.push_lives(&mut text)?;
    let arrows = Arrows {
        setting,
        run,
        layout: drawing.layout,
    };
    arrows.push(&mut text)?;
    let marks = Marks::of(alloc, setting, formula, run)?;
    drawing.push_rings(&marks, Mark::Asked, Look::Asked, &mut text)?;
    drawing.push_rings(&marks, Mark::Fails, Look::Fails, &mut text)?;
    drawing.push_states(alloc, Look::Dot, &mut text)?;
    drawing.push_states(alloc, Look::Rim, &mut text)?;
    drawing.push_sayings(alloc, Look::Rim, &mut text)?;
    drawing.push_states(alloc, Look::State, &mut text)?;
    drawing.push_states(alloc, Look::Stopped, &mut text)?;
    drawing.push_sayings(alloc, Look::Say, &mut text)?;
    drawing.push_legend(reaches, &mut text)?;
    text.push_str("</svg>\n")?;
    Ok(text)
}

/// Up to which step of each node the outcome rests on the run, where the run reaches it.
fn rest<M: Worded>(
    alloc: Global,
    setting: &Setting<M>,
    formula: &Formula<M::Fact>,
    run: &Run<M>,
) -> Result<Option<Reach>, AllocError>
    requires { IsRun (world_of setting.now) run.now }
{
    match evidence(alloc, setting, formula, run)? {
        Some(points) => Ok(Some(sharp(setting, run, points.as_slice()))),
        None => Ok(None),
    }
}

/// How many bytes the longest label has.
fn longest_label<M: Worded>(
    alloc: Global,
    setting: &Setting<M>,
    run: &Run<M>,
) -> Result<u32, AllocError> {
    let mut longest = 0;
    for step in 0..=run.horizon() {
        longest = longest.max(longest_at(alloc, setting, run, step)?);
    }
    Ok(longest)
}

/// The same at a step.
fn longest_at<M: Worded>(
    alloc: Global,
    setting: &Setting<M>,
    run: &Run<M>,
    step: u32,
) -> Result<u32, AllocError>
    requires { step ≤ horizon_of run.now }
{
    let mut longest = 0;
    for node in 0..run.nodes() {
        let mut words = String::new(alloc);
        setting
            .machine
            .push_state(&run.state(node, step), &mut words)?;
        let saying = Saying {
            setting,
            run,
            from: node,
            step,
        };
        let said = saying.words(alloc)?;
        longest = longest.max(words.len()).max(said.len());
    }
    Ok(u32::try_from(longest).unwrap_or(u32::MAX))
}

impl<M: Worded> Drawing<'_, M> {
    /// Adds what stands before all else: the size, the looks, the ground and the title.
    fn push_head(&self, title: &str, text: &mut String) -> Result<(), AllocError> {
        let width = self.layout.width();
        let height = self.layout.height(LEGEND_LINES);
        writeln!(
            text,
            "<svg xmlns='http://www.w3.org/2000/svg' width='{width}' height='{height}' viewBox='0 0 {width} {height}' role='img'",
        )?;
        text.push_str(" fill='#1c2530' font-family='ui-monospace,monospace' font-size='10'>\n")?;
        text.push_str("<title>")?;
        push_words(title, text)?;
        text.push_str("</title>\n")?;
        text.push_str(STYLE)?;
        writeln!(
            text,
            "<rect class='ground' fill='#fff' width='{width}' height='{height}'/>"
        )?;
        push_title(self.layout, title, text)
    }

    /// Adds what the outcome rests on, and when nodes are down.
    fn push_grounds(&self, reach: &Option<Reach>, text: &mut String) -> Result<(), AllocError> {
        if let Some(reach) = reach {
            self.push_rests(reach, text)?;
        }
        Look::Down.open(text)?;
        for node in 0..self.run.nodes() {
            self.column(node).push_downs(text)?;
        }
        close(text)
    }

    /// Adds what the outcome rests on.
    fn push_rests(&self, reach: &Reach, text: &mut String) -> Result<(), AllocError> {
        Look::Rest.open(text)?;
        for node in 0..self.run.nodes() {
            self.column(node).push_rest(reach, text)?;
        }
        close(text)
    }

    /// Adds a line and a number for each step.
    fn push_rows(&self, text: &mut String) -> Result<(), AllocError> {
        let end = self.layout.width().saturating_sub(8);
        Look::Row.open(text)?;
        for step in 0..=self.run.horizon() {
            writeln!(
                text,
                "<path d='M30 {}H{end}'/>",
                self.layout.place(0, step).y
            )?;
        }
        close(text)?;
        self.push_numbers(text)
    }

    /// Adds the numbers of the steps.
    fn push_numbers(&self, text: &mut String) -> Result<(), AllocError> {
        Look::Step.open(text)?;
        for step in 0..=self.run.horizon() {
            let y = self.layout.place(0, step).y.saturating_add(3);
            writeln!(text, "<text x='26' y='{y}'>{step}</text>")?;
        }
        close(text)
    }

    /// Adds the lines of all nodes' lives, and the heads of the columns.
    fn push_lives(&self, text: &mut String) -> Result<(), AllocError> {
        Look::Life.open(text)?;
        for node in 0..self.run.nodes() {
            self.column(node).push_life(text)?;
        }
        close(text)?;
        self.push_heads(text)
    }

    /// Adds the heads of the columns.
    fn push_heads(&self, text: &mut String) -> Result<(), AllocError> {
        Look::Head.open(text)?;
        for node in 0..self.run.nodes() {
            self.column(node).push_head(text)?;
        }
        close(text)
    }

    /// Adds rings around the points that have a mark.
    fn push_rings(
        &self,
        marks: &Marks,
        mark: Mark,
        look: Look,
        text: &mut String,
    ) -> Result<(), AllocError> {
        look.open(text)?;
        for node in 0..self.run.nodes() {
            self.column(node).push_rings(marks, mark, text)?;
        }
        close(text)
    }

    /// Adds what has this look of all nodes' states.
    fn push_states(&self, alloc: Global, look: Look, text: &mut String) -> Result<(), AllocError> {
        look.open(text)?;
        for node in 0..self.run.nodes() {
            self.column(node).push_states(alloc, look, text)?;
        }
        close(text)
    }

    /// A node's column.
    fn column(&self, node: u32) -> Column<'_, M>
        requires { node < nodes_of self.now.run.now }
    {
        Column {
            setting: self.setting,
            run: self.run,
            layout: self.layout,
            node,
        }
    }

    /// Adds what all nodes say, with this look.
    fn push_sayings(&self, alloc: Global, look: Look, text: &mut String) -> Result<(), AllocError> {
        look.open(text)?;
        for past in 0..self.run.horizon() {
            self.push_sayings_at(alloc, past + 1, text)?;
        }
        close(text)
    }

    /// Adds what all nodes say at a step.
    fn push_sayings_at(&self, alloc: Global, step: u32, text: &mut String) -> Result<(), AllocError>
        requires { step ≤ horizon_of self.now.run.now }
    {
        for from in 0..self.run.nodes() {
            let saying = Saying {
                setting: self.setting,
                run: self.run,
                from,
                step,
            };
            saying.push(alloc, self.layout, text)?;
        }
        Ok(())
    }

    /// Adds what the signs stand for.
    fn push_legend(&self, reaches: bool, text: &mut String) -> Result<(), AllocError> {
        let rings = if reaches {
            "ring: the outcome looks there; shaded: it rests on that"
        } else {
            "ring: the outcome looks there; red ring: first seen to fail there"
        };
        Look::Legend.open(text)?;
        self.push_told(
            0,
            "arrow: heard; red cross: omitted; bar at its end: nobody takes it",
            text,
        )?;
        self.push_told(
            1,
            "dashed with no end: arrives after the last step; grey: down",
            text,
        )?;
        self.push_told(2, rings, text)?;
        close(text)
    }

    /// Adds a line of the legend.
    fn push_told(&self, line: u32, words: &str, text: &mut String) -> Result<(), AllocError> {
        let place = self.layout.legend(line);
        writeln!(text, "<text x='{}' y='{}'>{words}</text>", place.x, place.y)
    }
}
