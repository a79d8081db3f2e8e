// The names of a script's devices.
ghost use Rattle.std.specs.Prelude.{◌≡◌, ◌≤◌, IsTrue, true, length, take};
ghost use Rattle.std.specs.List.{AllByRecursion, list_any};
ghost use Rattle.std.specs.Str.{bytes_eq};
ghost use Rattle.script_reader.specs.Fields.{is_name};
ghost use Rattle.script_text.specs.Printable.{AllDiffer};

use crate::limits::MAX_NAME_CHARACTERS;
use photo_script::Script;

/// Whether lines can declare the names of all devices, and all names differ.
pub fn has_names(script: &Script) -> bool
    ensures named { IsTrue result → AllByRecursion (λ name. is_name name ≡ true) script.now.names }
    ensures apart { IsTrue result → AllDiffer script.now.names }
    ensures refused { AllByRecursion (λ name. is_name name ≡ true) script.now.names → AllDiffer script.now.names → IsTrue result }
{
    for i in 0..script.devices() as u16 {
        let name = script.name(i);
        if !is_name(name) {
            return false;
        }
        if is_among_first(script, i, name) {
            return false;
        }
    }
    true
}

// Whether one of the first `count` devices has that name.
fn is_among_first(script: &Script, count: u16, name: &str) -> bool
    requires { count ≤ length script.now.names }
    ensures { result ≡ list_any (bytes_eq name.now) (take count script.now.names) }
{
    for i in 0..count {
        if name == script.name(i) {
            return true;
        }
    }
    false
}

// Whether a line can declare that name.
fn is_name(text: &str) -> bool
    ensures { result ≡ is_name text.now }
{
    let Some((first, others)) = text.as_bytes().split_first() else {
        return false;
    };
    if !first.is_ascii_lowercase() || others.len() >= MAX_NAME_CHARACTERS {
        return false;
    }
    others
        .iter()
        .all(|b| b.is_ascii_lowercase() || b.is_ascii_digit())
}
