//! The beginning of a key's lines.

ghost use Rattle.std.specs.Prelude.{◌≡◌, ◌++◌, OnOk, codes};
ghost use Rattle.std.specs.String.{string_bytes};
ghost use Rattle.staleness_report.specs.Escaped.{escaped};

use stale_model::KeyOps;
use staleness_report::escaped_name;
use std::alloc::{AllocError, Global};

/// Puts the word `key` and the name of a key behind a text, and a blank.
pub(crate) fn push_name(alloc: Global, text: &mut String, key: &KeyOps) -> Result<(), AllocError>
    ensures { OnOk result (string_bytes text.new
        ≡ string_bytes text.old ++ (codes "key " ++ escaped key.now.name ++ codes " ")) }
{
    text.push_str("key ")?;
    text.push_str(&escaped_name(alloc, key.name.as_slice())?)?;
    text.push_str(" ")
}
