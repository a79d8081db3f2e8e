//! The words of the shell's own that change nothing, and their answers.
use crate::helps::WORDS;
use crate::kind::{Kind, without_return};
use crate::lines::Lines;
use live_fleet::Fleet;
use photo_script::{GrowingScript, Script};
use script_views::{Wanted, push_story, push_whereabouts, push_whereabouts_in};
use std::alloc::{AllocError, Global};
use std::fs::File;
use std::io::{self, ErrorKind};
use std::rt::Files;
use std::str::from_utf8;

// What stands behind `where` or `story`.
#[derive(Drop)]
enum Asked<'a> {
    // The numbers of pictures.
    Pictures(Vec<u32>),
    // The first word that is no picture's number.
    Odd(&'a str),
}

/// What such a word tells: where pictures are, a picture's story, whether the lines were saved, or the help.
pub fn said_of<F: Files>(
    files: &F,
    alloc: Global,
    lines: &Lines,
    own: Kind,
    line: &[u8],
) -> Result<String, AllocError> {
    let text = without_return(from_utf8(line).unwrap_or(""));
    match own {
        Kind::Where => whereabouts(alloc, lines, text),
        Kind::Story => story(alloc, lines, text),
        Kind::Save => saved(files, alloc, lines, file_in(text)),
        _ => String::from_str(alloc, WORDS),
    }
}

// `where [PICTURE ..]`
fn whereabouts(alloc: Global, lines: &Lines, line: &str) -> Result<String, AllocError> {
    match pictures_in(alloc, line)? {
        Asked::Pictures(pictures) => {
            let wanted = Wanted {
                pictures,
                commands: u32::MAX,
                width: 0,
            };
            let none = GrowingScript::new(alloc);
            let script = lines.script().unwrap_or(none.script());
            whereabouts_text(alloc, script, lines.fleet(), &wanted)
        }
        Asked::Odd(word) => odd(alloc, "where", word),
    }
}

// Where pictures are on the fleet that ran the lines. Where it isn't there, the lines run anew.
fn whereabouts_text(
    alloc: Global,
    script: &Script,
    fleet: Option<&Fleet>,
    wanted: &Wanted,
) -> Result<String, AllocError> {
    let mut text = String::new(alloc);
    match fleet {
        Some(fleet) => push_whereabouts_in(alloc, &mut text, script, fleet, wanted)?,
        None => push_whereabouts(alloc, &mut text, script, wanted)?,
    }
    Ok(text)
}

// `story PICTURE`
fn story(alloc: Global, lines: &Lines, line: &str) -> Result<String, AllocError> {
    match pictures_in(alloc, line)? {
        Asked::Pictures(pictures) => match pictures.as_slice() {
            [picture] => story_of(alloc, lines, *picture),
            _ => String::from_str(alloc, "story: it tells of one picture, as 'story 7'\n"),
        },
        Asked::Odd(word) => odd(alloc, "story", word),
    }
}

// A story tells what each command did to a picture, so the lines run anew, and the devices are looked at before each command.
fn story_of(alloc: Global, lines: &Lines, picture: u32) -> Result<String, AllocError> {
    let none = GrowingScript::new(alloc);
    story_text(alloc, lines.script().unwrap_or(none.script()), picture)
}

fn story_text(alloc: Global, script: &Script, picture: u32) -> Result<String, AllocError> {
    let mut text = String::new(alloc);
    push_story(alloc, &mut text, script, picture)?;
    Ok(text)
}

fn odd(alloc: Global, own: &str, word: &str) -> Result<String, AllocError> {
    format!(in alloc; "{own}: '{word}' is no picture's number, which is from 1 to 999999999\n")
}

// The numbers behind the first word of a line, or what is none.
fn pictures_in<'a>(alloc: Global, line: &'a str) -> Result<Asked<'a>, AllocError> {
    let mut pictures = Vec::new(alloc);
    for word in line.split(' ').filter(|word| !word.is_empty()).skip(1) {
        match picture_of(word) {
            Some(picture) => pictures.push(picture)?,
            None => return Ok(Asked::Odd(word)),
        }
    }
    Ok(Asked::Pictures(pictures))
}

fn picture_of(word: &str) -> Option<u32> {
    match word.parse::<u32>() {
        Ok(number) if (1..=999_999_999).contains(&number) => Some(number),
        _ => None,
    }
}

// The name behind the first word of a line, which may have spaces in it.
fn file_in(line: &str) -> &str {
    match line.trim_matches(' ').split_once(' ') {
        Some((_, file)) => file.trim_start_matches(' '),
        None => "",
    }
}

// `save FILE`: no file that is there is written over.
fn saved<F: Files>(
    files: &F,
    alloc: Global,
    lines: &Lines,
    file: &str,
) -> Result<String, AllocError> {
    if file.is_empty() {
        return String::from_str(
            alloc,
            "save: it wants the name of a file, as 'save my.script'\n",
        );
    }
    match written(files, lines, file) {
        Ok(()) => format!(in alloc; "saved to {file}\n"),
        Err(error) => unsaved(alloc, file, &error),
    }
}

fn written<F: Files>(files: &F, lines: &Lines, file: &str) -> io::Result<()> {
    let mut to = File::create_new(files, file)?;
    lines.write(&mut to)
}

fn unsaved(alloc: Global, file: &str, error: &io::Error) -> Result<String, AllocError> {
    if error.kind() == ErrorKind::AlreadyExists {
        return format!(in alloc;
            "save: {file} is there already, and stays as it is; save takes a new name\n"
        );
    }
    format!(in alloc; "save: {file}: {error}\n")
}
