//! Writes a text to the caller's memory.
ghost use Rattle.std.specs.Prelude.{◌≤◌, length};
ghost use Rattle.std.specs.Bool.{OnFalse, OnTrue};
ghost use Rattle.photofleet_c.specs.Placed.{HasNoRoom, Holds};

/// Writes a text to the front of `out` if it has room there, and tells whether it has. `written` is set to its bytes.
pub fn place(text: &[u8], out: &mut [u8], written: &mut usize) -> bool
    ensures holds { OnTrue result (Holds out.old out.new written.new text.now) }
    ensures small { OnFalse result (HasNoRoom out.old out.new written.new text.now) }
{
    let count = text.len();
    *written = count;
    if out.len() < count {
        return false;
    }
    put(text, out, written);
    true
}

/// Writes a text to the front of `out`, where it has room. `written` is set to its bytes.
pub fn put(text: &[u8], out: &mut [u8], written: &mut usize)
    requires { length text.now ≤ length out.old }
    ensures { Holds out.old out.new written.new text.now }
{
    let count = text.len();
    *written = count;
    out[..count].copy_from_slice(text);
}
