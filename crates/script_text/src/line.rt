// The lines of commands.
ghost use Rattle.std.specs.Prelude.{◌≡◌, ◌++◌, string_bytes, codes, IfOk, OnOk};
ghost use Rattle.std.specs.Fmt.{decimal};
ghost use Rattle.photo_record.specs.Limits.{IsPicNo};
ghost use Rattle.photo_filter_text.specs.Printed.{◌␣◌, text_of};
ghost use Rattle.photo_script.specs.Reports.{name_of, version_text};
ghost use Rattle.script_text.specs.Texts.{record_text, line_of_command};
ghost use Rattle.script_text.specs.Printable.{HasWords, HasValues};

use crate::field::{name_of, push_record, push_version};
use photo_filter_rules::Filter;
use photo_filter_text::print;
use photo_record::{PicNo, Record};
use photo_script::{Command, Script};
use photo_version::Version;
use std::alloc::{AllocError, Global};

/// The line of a command, without its LF, with the names of the script's devices; a device that isn't there has the empty name.
/// The law `line_is_read` says when it reads as that command. Its only error is want of memory.
pub fn command_text(alloc: Global, script: &Script, command: &Command) -> Result<String, AllocError>
    ensures text { IfOk result (λ text. string_bytes text ≡ line_of_command script.now command.now) }
    ensures values { IfOk result (λ text. HasValues command.now) }
{
    let mut text = String::new(alloc);
    push_command(alloc, &mut text, script, command)?;
    Ok(text)
}

#[tactic(auto, unfolding(crate::specs::Texts::line_of_command))]
fn push_command(
    alloc: Global,
    text: &mut String,
    script: &Script,
    command: &Command,
) -> Result<(), AllocError>
    ensures text { OnOk result (string_bytes text.new ≡ string_bytes text.old ++ line_of_command script.now command.now) }
    ensures values { OnOk result (HasValues command.now) }
{
    match command {
        Command::New {
            device,
            picture,
            record,
        } => { push_edition(text, "new", name_of(script, *device), *picture, record) }
        Command::Edit {
            device,
            picture,
            record,
        } => { push_edition(text, "edit", name_of(script, *device), *picture, record) }
        Command::Remove { device, picture } => {
            push_picture(text, "remove", name_of(script, *device), *picture)
        }
        Command::Pull { target, source } => {
            push_names(
                text,
                "pull",
                name_of(script, *target),
                name_of(script, *source),
            )
        }
        Command::Narrow { device, filter } => {
            push_filter(alloc, text, "narrow", name_of(script, *device), filter)
        }
        Command::Refilter { device, filter } => {
            push_filter(alloc, text, "refilter", name_of(script, *device), filter)
        }
        Command::Preview { target, source } => {
            push_names(
                text,
                "preview",
                name_of(script, *target),
                name_of(script, *source),
            )
        }
        Command::List { device } => push_name(text, "list", name_of(script, *device)),
        Command::Conflicts { device } => push_name(text, "conflicts", name_of(script, *device)),
        Command::Knowledge { device } => push_name(text, "knowledge", name_of(script, *device)),
        Command::Knows {
            device,
            picture,
            version,
        } => { push_question(text, script, *device, *picture, *version) }
    }
}

fn push_name(text: &mut String, word: &str, name: &str) -> Result<(), AllocError>
    ensures { OnOk result (string_bytes text.new ≡ string_bytes text.old ++ (word.now ␣ name.now)) }
{
    write!(text, "{word} {name}")
}

fn push_names(text: &mut String, word: &str, name: &str, other: &str) -> Result<(), AllocError>
    ensures { OnOk result (string_bytes text.new ≡ string_bytes text.old ++ (word.now ␣ name.now ␣ other.now)) }
{
    write!(text, "{word} {name} {other}")
}

fn push_picture(text: &mut String, word: &str, name: &str, picture: PicNo) -> Result<(), AllocError>
    ensures text { OnOk result (string_bytes text.new ≡ string_bytes text.old ++ (word.now ␣ name.now ␣ decimal picture)) }
    ensures picture { IsPicNo picture }
{
    let picture = picture.value();
    write!(text, "{word} {name} {picture}")
}

fn push_edition(
    text: &mut String,
    word: &str,
    name: &str,
    picture: PicNo,
    record: &Record,
) -> Result<(), AllocError>
    ensures text { OnOk result (string_bytes text.new ≡ string_bytes text.old ++ (word.now ␣ name.now ␣ decimal picture ␣ record_text «record».now)) }
    ensures picture { IsPicNo picture }
    ensures words { OnOk result (HasWords «record».now) }
{
    push_picture(text, word, name, picture)?;
    text.push_str(" ")?;
    push_record(text, record)
}

fn push_filter(
    alloc: Global,
    text: &mut String,
    word: &str,
    name: &str,
    filter: &Filter,
) -> Result<(), AllocError>
    ensures { OnOk result (string_bytes text.new ≡ string_bytes text.old ++ (word.now ␣ name.now ␣ text_of filter.now)) }
{
    let filter = print(alloc, filter.tree())?;
    write!(text, "{word} {name} {filter}")
}

fn push_question(
    text: &mut String,
    script: &Script,
    device: u16,
    picture: PicNo,
    version: Version,
) -> Result<(), AllocError>
    ensures text { OnOk result (string_bytes text.new
        ≡ string_bytes text.old ++ (codes "knows" ␣ name_of script.now device ␣ decimal picture ␣ version_text script.now version)) }
    ensures picture { IsPicNo picture }
{
    push_picture(text, "knows", name_of(script, device), picture)?;
    text.push_str(" ")?;
    push_version(text, script, version)
}
