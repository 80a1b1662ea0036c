//! Places in a protocol file.

/// A place in a protocol file: a section, in it the name of an entry or the number of an item, and in a rule a part.
#[derive(Clone, Copy, Debug)]
pub struct Place<'a> {
    /// The whole place, as it is shown.
    pub text: &'a str,
    pub section: &'a str,
    pub entry: Option<&'a str>,
    pub part: Option<&'a str>,
}

/// The place that a text shows: keys and numbers, with points between.
pub fn place_of(text: &str) -> Place<'_> {
    let (section, behind) = parted(text);
    let (entry, part) = match behind {
        Some(behind) => {
            let (entry, part) = parted(behind);
            (Some(entry), part)
        }
        None => (None, None),
    };
    Place {
        text,
        section,
        entry,
        part,
    }
}

/// What stands before the first point of a text, and what behind it.
fn parted(text: &str) -> (&str, Option<&str>) {
    match text.split_once('.') {
        Some((front, behind)) => (front, Some(behind)),
        None => (text, None),
    }
}
