//! Texts of a protocol file.

ghost use Rattle.std.specs.Prelude.{◌≡◌, ◌≢◌, IfOk, MatchResult, Ok, Err, option_map};
ghost use Rattle.toml.specs.Data.{get_member};
ghost use Rattle.toml.specs.View.{view, table_view};
ghost use Rattle.lf_protocol_file.specs.Texts.{tokens_in};

use crate::fault::Fault;
use lf_grammar::Token;
use lf_rules::Name;
use lf_texts::text_tokens;
use std::alloc::{AllocError, Global};
use toml::{Table, Value};

/// A name with a text of its own.
pub fn name_of(alloc: Global, text: &str) -> Result<Name, AllocError>
    ensures { IfOk result (λ name. name ≡ text.now) }
{
    let text = String::from_str(alloc, text)?;
    Ok(Name::new(text))
}

/// The value at a key, if there is one.
pub fn at<'a>(table: &'a Table, key: &str) -> Option<&'a Value>
    ensures { option_map (λ v. view v.now) result ≡ get_member key.now (table_view table.now) }
{
    table.get(key)
}

/// The tokens of a value that has to be a text.
pub fn tokens_in(alloc: Global, value: &Value) -> Result<Vec<Token>, Fault>
    ensures { MatchResult result (λ ts. tokens_in (view value.now) ≡ Ok ts.items) (λ e. e ≢ Fault.Memory → tokens_in (view value.now) ≡ Err e) }
{
    match value {
        Value::String(text) => match text_tokens(alloc, text.as_str()) {
            Ok(tokens) => Ok(tokens),
            Err(e) => Err(e.into()),
        },
        _ => Err(Fault::WrongKind),
    }
}
