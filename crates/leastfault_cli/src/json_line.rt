//! The line of a combination as a JSON object.

use std::alloc::{AllocError, Global};

/// The digits of a code in JSON.
const DIGITS: &[u8; 16] = b"0123456789abcdef";

/// The line of a combination as a JSON object on a line: each value at the name of what varies, the reply's first line at `reply`, and
/// the lines behind it at `faults`.
pub(crate) fn json_line(
    alloc: Global,
    line: &[u8],
    names: &[String],
) -> Result<Vec<u8>, AllocError> {
    let mut object = Vec::new(alloc);
    let mut cells = line
        .strip_suffix(b"\n")
        .unwrap_or(line)
        .split(|byte| *byte == b'\t');
    object.push(b'{')?;
    for name in names {
        push_text(&mut object, name.as_bytes())?;
        object.push(b':')?;
        push_text(&mut object, cells.next().unwrap_or(b""))?;
        object.push(b',')?;
    }
    object.extend_from_slice(b"\"reply\":")?;
    push_text(&mut object, cells.next().unwrap_or(b""))?;
    object.extend_from_slice(b",\"faults\":[")?;
    let mut is_first = true;
    for fault in cells {
        if !is_first {
            object.push(b',')?;
        }
        is_first = false;
        push_text(&mut object, fault)?;
    }
    object.extend_from_slice(b"]}\n")?;
    Ok(object)
}

/// Adds a text of JSON.
fn push_text(object: &mut Vec<u8>, text: &[u8]) -> Result<(), AllocError> {
    object.push(b'"')?;
    for byte in text {
        push_byte(object, *byte)?;
    }
    object.push(b'"')?;
    Ok(())
}

/// Adds a byte of a text of JSON.
fn push_byte(object: &mut Vec<u8>, byte: u8) -> Result<(), AllocError> {
    if byte == b'"' || byte == b'\\' {
        object.push(b'\\')?;
        object.push(byte)?;
    } else if byte < 32 {
        object.extend_from_slice(b"\\u00")?;
        object.push(DIGITS[usize::from(byte / 16)])?;
        object.push(DIGITS[usize::from(byte % 16)])?;
    } else {
        object.push(byte)?;
    }
    Ok(())
}
