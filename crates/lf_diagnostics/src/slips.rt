//! What is written as in other languages.

/// Signs of other languages, and what is written instead.
const SIGNS: [(&str, &str); 55] = [
    ("==", "equality is written `=`"),
    ("===", "equality is written `=`"),
    (":=", "an assignment is written `=`"),
    ("+=", "write the sum out: `x = x + 1`"),
    ("-=", "write the difference out: `x = x - 1`"),
    ("|=", "write it out: `x = x or y`, of sets `x = x + y`"),
    ("&=", "write it out: `x = x and y`"),
    ("++", "write the sum out: `x = x + 1`"),
    ("--", "write the difference out: `x = x - 1`"),
    ("<>", "unequal is written `!=`"),
    ("/=", "unequal is written `!=`"),
    ("~=", "unequal is written `!=`"),
    ("!==", "unequal is written `!=`"),
    ("=<", "at most is written `<=`"),
    (
        "=>",
        "at least is written `>=`; for \"if p then q\" write `not p or q`",
    ),
    ("->", "for \"if p then q\" write `not p or q`"),
    ("==>", "for \"if p then q\" write `not p or q`"),
    ("<->", "for \"p just when q\" write `p = q`"),
    ("<=>", "for \"p just when q\" write `p = q`"),
    (
        "<-",
        "an assignment is written `=`, and there are no numbers below 0",
    ),
    ("&&", "write `and`"),
    (
        "&",
        "write `and`; of sets, what two have in common is `a - (all - b)`",
    ),
    ("/\\", "write `and`"),
    ("||", "write `or`"),
    ("\\/", "write `or`"),
    ("|", "write `or`; of sets, what either has is `a + b`"),
    ("!", "write `not`; unequal is `!=`"),
    ("~", "write `not`"),
    ("*", "there is no multiplication: `2 * x` is `x + x`"),
    ("**", "there is no multiplication: `2 * x` is `x + x`"),
    (
        "/",
        "there is no division; more than half of the nodes is `majority(s)`",
    ),
    (
        "//",
        "there is no division; more than half of the nodes is `majority(s)`",
    ),
    ("%", "the remainder is written `mod`: `x mod 3`"),
    ("^", "there are no powers"),
    ("...", "a range is written with two points: `{0..2}`"),
    (
        "..=",
        "a range is written `{0..2}`, and has its last number",
    ),
    (
        "..<",
        "a range is written `{0..2}`, and has its last number",
    ),
    (
        ".",
        "numbers are whole, and nothing has parts; a range of nodes is `{0..2}`",
    ),
    (
        "[",
        "brackets stand behind tables and constants alone: `log[1]`; a set of nodes is `{0, 2}`",
    ),
    (
        "?",
        "there is no choice in an expression: write two rules, the second with `else`",
    ),
    ("#", "a comment stands outside of the text"),
    ("@", "at a node is written `at`, in outcomes alone"),
    ("\\", "take away from a set by `-`"),
    ("\u{2260}", "unequal is written `!=`"),
    ("\u{2264}", "at most is written `<=`"),
    ("\u{2265}", "at least is written `>=`"),
    ("\u{2227}", "write `and`"),
    ("\u{2228}", "write `or`"),
    ("\u{ac}", "write `not`"),
    ("\u{2208}", "write `in`"),
    ("\u{222a}", "of sets, what either has is `a + b`"),
    ("\u{2229}", "of sets, what both have is `a - (all - b)`"),
    ("\u{2205}", "the empty set is `{}`"),
    ("\u{d7}", "there is no multiplication: `2 * x` is `x + x`"),
    ("\u{2026}", "a range is written with two points: `{0..2}`"),
];

/// Words of other languages, and what may be meant.
const WORDS: [(&str, &str); 42] = [
    ("self", "me"),
    ("myself", "me"),
    ("this", "me"),
    ("id", "me"),
    ("pid", "me"),
    ("from", "sender"),
    ("src", "sender"),
    ("source", "sender"),
    ("now", "t"),
    ("time", "t"),
    ("round", "t"),
    ("step", "t"),
    ("n", "nodes"),
    ("everyone", "all"),
    ("everybody", "all"),
    ("others", "all"),
    ("size", "count"),
    ("len", "count"),
    ("length", "count"),
    ("card", "count"),
    ("cardinality", "count"),
    ("quorum", "majority"),
    ("most", "majority"),
    ("minimum", "min"),
    ("maximum", "max"),
    ("first", "lowest"),
    ("last", "highest"),
    ("every", "each"),
    ("all", "each"),
    ("forall", "each"),
    ("any", "some"),
    ("exists", "some"),
    ("none", "no"),
    ("never", "no"),
    ("globally", "always"),
    ("eventually", "ever"),
    ("finally", "ever"),
    ("init", "start"),
    ("boot", "start"),
    ("tick", "begin"),
    ("recover", "wake"),
    ("restart", "wake"),
];

/// What is written instead of a sign, or of a word that joins values, in another language.
pub fn instead_of(sign: &str) -> Option<&'static str> {
    for (other, words) in SIGNS {
        if other == sign {
            return Some(words);
        }
    }
    match sign {
        "is" | "equals" | "eq" => Some("equality is written `=`"),
        "implies" => Some("for \"if p then q\" write `not p or q`"),
        "xor" => Some("for \"p or q, and not both\" write `p != q`"),
        "contains" | "has" | "includes" => Some(
            "whether a set has a node is written `node in set`",
        ),
        "then" => Some("what is done stands in `set` and `send`"),
        "if" => Some("a guard stands alone; for \"if p then q\" write `not p or q`"),
        "null" | "nil" | "none" | "empty" => Some("the empty set is `{}`"),
        _ => None,
    }
}

/// The one of some words that may be meant by a word of another language.
pub fn meant_by<'a>(word: &str, words: &[&'a str]) -> Option<&'a str> {
    for (other, meant) in WORDS {
        if word.eq_ignore_ascii_case(other) {
            for own in words {
                if *own == meant {
                    return Some(*own);
                }
            }
        }
    }
    None
}
