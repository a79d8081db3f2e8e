// Cuts a line into fields, and reads single fields.
ghost use Rattle.std.specs.Prelude.{◌≡◌, ◌≢◌, ◌<◌, ◌^◌, [], true, None, Some, IfSome, SomeIff, MatchOption, map, OnOk, OnErr};
ghost use Rattle.script_reader.specs.Lines.{fields_of, without_spaces, behind_field, third_field_on};
ghost use Rattle.script_reader.specs.Fields.{is_name, cut_at_colon, cut_at_dot, epoch_of, is_decimal, number_of, picture_of, version_number_of};
ghost use Rattle.script_reader.specs.Saying.{filter_said};
ghost use Rattle.script_reader.specs.Making.{made_number, second_picture};
ghost use Rattle.script_reader.specs.Steps.{Gives, texts};

use crate::LineFault;
use crate::limits::{MAX_EPOCH, MAX_NAME_CHARACTERS, MAX_VERSION};
use crate::refusal::Refusal;
use photo_filter_rules::{BuildFault, Filter};
use photo_filter_text::FilterFault;
use photo_record::PicNo;
use std::alloc::{AllocError, Global};

/// Replaces the list's items by the fields of a line, which runs of spaces separate.
pub fn put_fields<'a>(fields: &mut Vec<&'a str>, line: &'a str) -> Result<(), AllocError>
    ensures fields { OnOk result (map (λ f. f.now) fields.new.items ≡ fields_of line.now) }
    ensures memory { OnErr result (fields_of line.now ≢ []) }
{
    fields.clear();
    for piece in line.split(' ') {
        if !piece.is_empty() {
            fields.push(piece)?;
        }
    }
    Ok(())
}

/// Gives the text of a line from its third field on.
pub fn third_field_on(line: &str) -> &str
    ensures { result.now ≡ third_field_on line.now }
{
    without_spaces(behind_field(behind_field(line)))
}

// Gives a text without its first field.
fn behind_field(text: &str) -> &str
    ensures { result.now ≡ behind_field text.now }
{
    match without_spaces(text).split_once(' ') {
        Some((_, rest)) => rest,
        None => "",
    }
}

fn without_spaces(text: &str) -> &str
    ensures { result.now ≡ without_spaces text.now }
{
    let mut rest = text;
    while let Some(more) = rest.strip_prefix(' ') {
        rest = more;
    }
    rest
}

/// Whether a device may have that name: a letter from a to z, and then at most 15 such letters and digits.
pub fn is_name(text: &str) -> bool
    ensures { result ≡ is_name text.now }
{
    let Some((first, others)) = text.as_bytes().split_first() else {
        return false;
    };
    if !first.is_ascii_lowercase() || others.len() >= MAX_NAME_CHARACTERS {
        return false;
    }
    others
        .iter()
        .all(|b| b.is_ascii_lowercase() || b.is_ascii_digit())
}

/// Gives the number of the picture that a line of these fields makes, if it is a `new` of a script.
pub fn made_by(fields: &[&str]) -> Option<u32>
    ensures { result ≡ made_number (texts fields.now) }
{
    let (word, arguments) = fields.split_first()?;
    if *word != "new" {
        return None;
    }
    second_picture(arguments)
}

fn second_picture(arguments: &[&str]) -> Option<u32>
    ensures { result ≡ second_picture (texts arguments.now) }
{
    let (_, others) = arguments.split_first()?;
    let (picture, _) = others.split_first()?;
    Some(picture_of(picture)?.value())
}

/// Splits a text at its first dot.
pub fn cut_at_dot(text: &str) -> Option<(&str, &str)>
    ensures { MatchOption result (cut_at_dot text.now ≡ None) (λ parts. cut_at_dot text.now ≡ Some (parts.0.now, parts.1.now)) }
{
    text.split_once('.')
}

/// Splits a text at its first colon.
pub fn cut_at_colon(text: &str) -> Option<(&str, &str)>
    ensures { MatchOption result (cut_at_colon text.now ≡ None) (λ parts. cut_at_colon text.now ≡ Some (parts.0.now, parts.1.now)) }
{
    text.split_once(':')
}

// Reads decimal digits without a leading zero as a number of at most 32 bits.
fn number_of(text: &str) -> Option<u32>
    ensures { SomeIff result ((is_decimal text.now ≡ true) × (number_of text.now < 2 ^ 32)) (number_of text.now) }
{
    let first = *text.as_bytes().first()?;
    if first < b'1' || first > b'9' {
        return None;
    }
    text.parse().ok()
}

/// Reads a picture number: a decimal without a leading zero.
pub fn picture_of(text: &str) -> Option<PicNo>
    ensures { result ≡ picture_of text.now }
{
    PicNo::new(number_of(text)?)
}

/// Reads the epoch after a dot, a decimal without a leading zero.
pub fn epoch_of(text: &str) -> Option<u32>
    ensures { result ≡ epoch_of text.now }
{
    let number = number_of(text)?;
    if number == 0 || number > MAX_EPOCH {
        return None;
    }
    Some(number)
}

/// Reads the number of a version, a decimal without a leading zero.
pub fn version_number_of(text: &str) -> Option<u32>
    ensures number { result ≡ version_number_of text.now }
    ensures above_zero { IfSome result (λ n. 0 < n) }
{
    let number = number_of(text)?;
    if number == 0 || number > MAX_VERSION {
        return None;
    }
    Some(number)
}

/// Reads a filter.
#[tactic(auto, unfolding(crate::specs::Saying::filter_said))]
pub fn filter_of(alloc: Global, text: &str) -> Result<Filter, Refusal>
    ensures { Gives (λ f. f) result (filter_said text.now) }
{
    let tree = match photo_filter_text::read(alloc, text) {
        Ok(tree) => tree,
        Err(FilterFault::NoMemory) => return Err(Refusal::Memory),
        Err(_) => return Err(Refusal::Fault(LineFault::BadFilter)),
    };
    match Filter::build(alloc, tree) {
        Ok(filter) => Ok(filter),
        Err((_, BuildFault::NoMemory)) => Err(Refusal::Memory),
        Err((_, BuildFault::TooWide)) => Err(Refusal::Fault(LineFault::BadFilter)),
    }
}
