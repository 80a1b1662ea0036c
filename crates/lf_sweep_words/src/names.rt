//! The names of what varies.

ghost use Rattle.std.specs.Prelude.{◌≡◌, map, string_bytes, IfOk};
ghost use Rattle.lf_sweep.specs.declared.varied.Varied.{Varied};
ghost use Rattle.lf_sweep_words.specs.Words.{written_name};

use lf_sweep::{Place, Varied};
use std::alloc::{AllocError, Global};

/// What varies, by name, in its order: a key of the scenario, or `given.NAME` for a constant of its protocol. The error is that memory has
/// run out.
pub fn names_of(alloc: Global, varied: &[Varied]) -> Result<Vec<String>, AllocError>
    ensures { IfOk result (λ names. map string_bytes names.items ≡ map (λ (v : Varied). written_name v.place) varied.now) }
{
    let mut names = Vec::new(alloc);
    'names: for one in varied {
        names.push(name_of(alloc, one.place())?)?;
    }
    Ok(names)
}

/// The name of what varies.
fn name_of(alloc: Global, place: &Place) -> Result<String, AllocError>
    ensures { IfOk result (λ name. string_bytes name ≡ written_name place.now) }
{
    match place {
        Place::Key(name) => String::from_str(alloc, name.as_str()),
        Place::Constant(name) => {
            let mut text = String::from_str(alloc, "given.")?;
            text.push_str(name.as_str())?;
            Ok(text)
        }
    }
}
