//! Words within an SVG document.

use std::alloc::AllocError;

/// Adds words to a document, each character that has a meaning there by its name, and a blank for one that is none to be seen.
pub(crate) fn push_words(words: &str, text: &mut String) -> Result<(), AllocError> {
    for character in words.chars() {
        push_character(character, text)?;
    }
    Ok(())
}

/// Adds words that have room for so many characters: past these an ellipsis stands for the rest, and a browser tells all of them where one points at it.
pub(crate) fn push_label(words: &str, room: u32, text: &mut String) -> Result<(), AllocError> {
    let mut left = room;
    for character in words.chars() {
        if left == 0 {
            text.push_str("…<title>")?;
            push_words(words, text)?;
            return text.push_str("</title>");
        }
        left -= 1;
        push_character(character, text)?;
    }
    Ok(())
}

/// Adds a character.
fn push_character(character: char, text: &mut String) -> Result<(), AllocError> {
    match character {
        '&' => text.push_str("&amp;"),
        '<' => text.push_str("&lt;"),
        '>' => text.push_str("&gt;"),
        '"' => text.push_str("&quot;"),
        _ if character.is_control() => text.push(' '),
        _ => text.push(character),
    }
}
