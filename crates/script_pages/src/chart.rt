//! The run of a script as a chart: what stands still in it, and the drawing of all commands.
ghost use Rattle.std.specs.Prelude.{◌<◌, length};

use crate::columns::{Band, Columned, Columns, columned_by, layout_of};
use crate::escaping::push_escaped;
use crate::filters::{AT_LEFT, push_whole_filter, shown_filter};
use crate::layout::Layout;
use crate::running::push_run;
use crate::style::{LEGEND, STYLE};
use photo_script::Script;
use script_views::device_name;
use std::alloc::{AllocError, Global};
use unicode_width::UnicodeWidthStr;

/// Appends the text of `chart` to another: the script's run as an SVG.
pub fn push_chart(
    alloc: Global,
    text: &mut String,
    script: &Script,
    columns: Columns,
) -> Result<(), AllocError> {
    let columned = columned_by(alloc, script, columns)?;
    push_columned(alloc, text, script, columns, &columned)
}

fn push_columned(
    alloc: Global,
    text: &mut String,
    script: &Script,
    columns: Columns,
    columned: &Columned,
) -> Result<(), AllocError> {
    let left = left_width(alloc, script)?;
    let layout = layout_of(alloc, script, columned, left, names_width(script))?;
    push_head(text, &layout)?;
    push_words(text, script, columns)?;
    text.push_str(STYLE)?;
    push_bands(text, &layout, &columned.bands, columns)?;
    for place in 0..script.devices() {
        push_lane(alloc, text, script, &layout, place as u16)?;
    }
    let legend = layout.legend();
    push_run(alloc, text, script, layout, columned)?;
    push_legend(text, legend)
}

/// Appends to a text, as data, where in the chart each command's column has its middle, and where each device's lane lies.
pub fn push_places(alloc: Global, text: &mut String, script: &Script) -> Result<(), AllocError> {
    let columned = columned_by(alloc, script, Columns::Commands)?;
    push_middles(alloc, text, script, &columned)
}

fn push_middles(
    alloc: Global,
    text: &mut String,
    script: &Script,
    columned: &Columned,
) -> Result<(), AllocError> {
    let left = left_width(alloc, script)?;
    let layout = layout_of(alloc, script, columned, left, names_width(script))?;
    push_layout(text, script, &layout)
}

fn push_layout(text: &mut String, script: &Script, layout: &Layout) -> Result<(), AllocError> {
    let mut front = "\"columns\":[";
    text.push_str(if script.commands() == 0 { front } else { "" })?;
    for place in 0..script.commands() {
        let x = layout.x(place as u32);
        write!(text, "{front}{x}")?;
        front = ",";
    }
    front = "],\n\"lanes\":[";
    text.push_str(if script.devices() == 0 { front } else { "" })?;
    for place in 0..script.devices() {
        let y = layout.y(place as u16);
        write!(text, "{front}{y}")?;
        front = ",";
    }
    text.push_str("],\n")
}

// How wide the devices' names are.
fn names_width(script: &Script) -> usize {
    let mut widest = 0usize;
    for place in 0..script.devices() {
        widest = widest.max(device_name(script, place as u16).width());
    }
    widest
}

// How wide the names and filters at the left are.
fn left_width(alloc: Global, script: &Script) -> Result<usize, AllocError> {
    let mut left = 0usize;
    for place in 0..script.devices() {
        let name = device_name(script, place as u16).width().saturating_add(2);
        let filter = filter_width(alloc, script, place as u16)?;
        left = left.max(name).max(filter);
    }
    Ok(left)
}

fn filter_width(alloc: Global, script: &Script, place: u16) -> Result<usize, AllocError> {
    if usize::from(place) >= script.devices() {
        return Ok(0);
    }
    let shown = shown_filter(alloc, script.filter(place), AT_LEFT)?;
    Ok(shown.as_str().width())
}

fn push_head(text: &mut String, layout: &Layout) -> Result<(), AllocError> {
    let (width, height) = (layout.width(), layout.height());
    write!(
        text,
        "<svg xmlns=\"http://www.w3.org/2000/svg\" role=\"img\" aria-labelledby=\"title desc\" width=\"{width}\" height=\"{height}\" viewBox=\"0 0 {width} {height}\">\n"
    )
}

// The title and the description, which say in words what the chart shows.
fn push_words(text: &mut String, script: &Script, columns: Columns) -> Result<(), AllocError> {
    let (commands, devices) = (script.commands(), script.devices());
    let order = match columns {
        Columns::Commands => "by command",
        Columns::Batches => "by batch",
    };
    write!(
        text,
        "<title id=\"title\">A run of {commands} commands on {devices} devices, {order}</title>\n<desc id=\"desc\">Time runs from left to right. The lanes, from the top:"
    )?;
    for place in 0..devices {
        push_lane_words(text, script, place as u16)?;
    }
    let tally = script.tally();
    let (changes, pulls, questions) = (tally.changes, tally.pulls, tally.reports);
    writeln!(
        text,
        " {changes} changes, {pulls} pulls and {questions} questions.</desc>"
    )
}

fn push_lane_words(text: &mut String, script: &Script, place: u16) -> Result<(), AllocError> {
    text.push_str(" ")?;
    push_lane_title(text, script, place)?;
    text.push_str(";")
}

// The page, a ground for every other band, and the numbers above the bands.
fn push_bands(
    text: &mut String,
    layout: &Layout,
    bands: &[Band],
    columns: Columns,
) -> Result<(), AllocError> {
    let (width, height) = (layout.width(), layout.height());
    let (word, first) = match columns {
        Columns::Commands => ("command", 1),
        Columns::Batches => ("batch", 0),
    };
    let x = layout.start() - 8;
    write!(
        text,
        "<rect class=\"page\" width=\"{width}\" height=\"{height}\"/>\n<text class=\"note end\" x=\"{x}\" y=\"28\">{word}</text>\n"
    )?;
    for (place, band) in bands.iter().enumerate() {
        push_band(text, layout, *band, place, first)?;
    }
    Ok(())
}

// One band; its number stands there where there is room, else each fiftieth.
fn push_band(
    text: &mut String,
    layout: &Layout,
    band: Band,
    place: usize,
    first: usize,
) -> Result<(), AllocError> {
    let (from, end) = (layout.edge(band.from), layout.edge(band.end));
    if place % 2 == 1 {
        let (width, height) = (end.saturating_sub(from), layout.legend() - 44);
        writeln!(
            text,
            "<rect class=\"band\" x=\"{from}\" y=\"14\" width=\"{width}\" height=\"{height}\"/>"
        )?;
    }
    let number = place.saturating_add(first);
    if layout.labelled || number % 50 == 0 {
        let x = from / 2 + end / 2;
        writeln!(
            text,
            "<text class=\"note mid\" x=\"{x}\" y=\"28\">{number}</text>"
        )?;
    }
    Ok(())
}

// The lane of a device, with its name repeated along it, and its first filter.
fn push_lane(
    alloc: Global,
    text: &mut String,
    script: &Script,
    layout: &Layout,
    place: u16,
) -> Result<(), AllocError> {
    text.push_str("<g><title>")?;
    push_lane_title(text, script, place)?;
    push_lane_line(text, script, layout, place)?;
    if usize::from(place) < script.devices() {
        let below = layout.y(place) + 12;
        write!(text, "<text class=\"note\" x=\"12\" y=\"{below}\">")?;
        push_shown_filter(alloc, text, script, place)?;
        text.push_str("</text>")?;
    }
    text.push_str("</g>\n")
}

// The device's name, and its whole filter.
fn push_lane_title(text: &mut String, script: &Script, place: u16) -> Result<(), AllocError> {
    if usize::from(place) >= script.devices() {
        return Ok(());
    }
    let name = script.name(place);
    write!(text, "{name} keeps ")?;
    push_whole_filter(text, script.filter(place))
}

fn push_lane_line(
    text: &mut String,
    script: &Script,
    layout: &Layout,
    place: u16,
) -> Result<(), AllocError> {
    let (y, from, end) = (layout.y(place), layout.start(), layout.end());
    let above = y - 4;
    let name = device_name(script, place);
    write!(
        text,
        "</title><path class=\"lane\" d=\"M{from} {y}H{end}\"/>\n<text class=\"name\" x=\"12\" y=\"{above}\">{name}</text>\n"
    )?;
    for again in layout.names() {
        let x = from + u64::from(*again) + 8;
        writeln!(
            text,
            "<text class=\"name\" x=\"{x}\" y=\"{above}\">{name}</text>"
        )?;
    }
    Ok(())
}

fn push_shown_filter(
    alloc: Global,
    text: &mut String,
    script: &Script,
    place: u16,
) -> Result<(), AllocError>
    requires { place < length script.now.names }
{
    let shown = shown_filter(alloc, script.filter(place), AT_LEFT)?;
    push_escaped(text, &shown)
}

// The legend, with the distance of its first line from the top.
fn push_legend(text: &mut String, y: u64) -> Result<(), AllocError> {
    writeln!(text, "<g transform=\"translate(12 {y})\">")?;
    text.push_str(LEGEND)?;
    text.push_str("</g>\n</svg>\n")
}
