//! What is worked out for each node of a set.

use lf_diagnostics::{Reader, Stop, behind};
use lf_grammar::Slip;
use lf_rules::{Sort, Within};
use lf_texts::with_it;

/// Whether a body stands behind a piece.
pub(crate) fn is_body(piece: &str) -> bool {
    piece == "where" || piece == ":"
}

/// Refuses a set, or the body behind it, that is of another kind than it has to be. Each of them is read once more, for what it is.
pub(crate) fn misfit_body(reader: &Reader<'_>, slip: Slip) -> Result<usize, Stop> {
    let at = reader.piece_at(slip.at);
    let (opens, sort) = match reader.piece(at) {
        "where" => (1, Sort::Truth),
        _ => (2, Sort::Number),
    };
    if let Some(set) = reader.value(slip.from.saturating_sub(opens), slip.at)? {
        reader.wants(
            &set,
            Sort::Nodes,
            "a set of nodes has to stand before `where` and `:`",
        )?;
    }
    let inside = with_it(reader.place, Within::Body);
    let inner = Reader {
        place: &inside,
        ..*reader
    };
    if let Some(body) = inner.value(slip.at.saturating_sub(1), slip.to)? {
        reader.wants(&body, sort, behind_it(sort))?;
    }
    Ok(behind(at))
}

/// What stands behind `where`, and behind a colon.
fn behind_it(sort: Sort) -> &'static str {
    match sort {
        Sort::Truth => "behind `where` stands what is asked of each node, which is true or false",
        _ => "behind `:` stands a number for each node",
    }
}
