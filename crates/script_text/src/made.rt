// The pictures that a script makes.
ghost use Rattle.std.specs.Prelude.{◌≡◌, ◌↔◌, IsTrue, IfOk, option_to_list};
ghost use Rattle.script_text.specs.Printable.{AllDiffer, made_in, pictures_made};

use photo_record::PicNo;
use photo_script::{Command, Script};
use std::alloc::{AllocError, Global};
use std::collections::BTreeSet;

/// Whether no two commands make the same picture. Its only error is want of memory.
pub fn makes_each_once(alloc: Global, script: &Script) -> Result<bool, AllocError>
    ensures { IfOk result (λ once. IsTrue once ↔ AllDiffer (pictures_made script.now.commands)) }
{
    let mut made = BTreeSet::new(alloc);
    for i in 0..script.commands() as u32 {
        let Some(picture) = picture_made(script.command(i + 1)) else {
            continue;
        };
        if !made.insert(picture.value())? {
            return Ok(false);
        }
    }
    Ok(true)
}

// The picture that a `new` command makes; `None` for other commands.
fn picture_made(command: &Command) -> Option<PicNo>
    ensures { option_to_list result ≡ made_in command.now }
{
    match command {
        Command::New { picture, .. } => Some(*picture),
        _ => None,
    }
}
