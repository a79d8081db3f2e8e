//! The columns of the chart, from left to right, and how wide it is for a script.
use crate::layout::Layout;
use photo_batcher::{Plan, plan};
use photo_script::{Command, Script, devices_of};
use std::alloc::{AllocError, Global};

/// What a column of the chart stands for.
#[derive(Clone, Copy)]
pub enum Columns {
    /// Each command has one.
    Commands,
    /// Each batch has one for what its commands do on single devices, and one for each pull.
    Batches,
}

/// The columns of one batch, or of one command: from the first on up to the end.
#[derive(Clone, Copy)]
pub struct Band {
    pub from: u32,
    pub end: u32,
}

/// The column of each command, by its number less one, and the columns that belong together.
#[derive(Drop)]
pub struct Columned {
    pub columns: Vec<u32>,
    pub bands: Vec<Band>,
}

impl Columned {
    // All commands in the first column, without bands.
    fn new(alloc: Global, commands: usize) -> Result<Columned, AllocError> {
        let columns = vec![in alloc; 0; commands]?;
        Ok(Columned {
            columns,
            bands: Vec::new(alloc),
        })
    }

    /// How many columns there are.
    pub fn width(&self) -> usize {
        match self.bands.last() {
            Some(band) => band.end as usize,
            None => 0,
        }
    }
}

/// The columns of a chart.
pub fn columned_by(
    alloc: Global,
    script: &Script,
    columns: Columns,
) -> Result<Columned, AllocError> {
    let mut columned = Columned::new(alloc, script.commands())?;
    match columns {
        Columns::Commands => place_each(&mut columned)?,
        Columns::Batches => place_batches(alloc, &mut columned, script)?,
    }
    Ok(columned)
}

// A column for each command.
fn place_each(columned: &mut Columned) -> Result<(), AllocError> {
    let Columned { columns, bands } = columned;
    let mut from = 0u32;
    for column in columns.iter_mut() {
        *column = from;
        let end = from.saturating_add(1);
        bands.push(Band { from, end })?;
        from = end;
    }
    Ok(())
}

// Columns for each batch of the script's plan.
fn place_batches(
    alloc: Global,
    columned: &mut Columned,
    script: &Script,
) -> Result<(), AllocError> {
    let plan = plan(alloc, script)?;
    place_plan(columned, script, &plan)
}

fn place_plan(columned: &mut Columned, script: &Script, plan: &Plan) -> Result<(), AllocError> {
    let mut from = 0;
    for batch in 0..plan.batches() {
        let end = place_members(script, plan.members(batch), &mut columned.columns, from);
        columned.bands.push(Band { from, end })?;
        from = end;
    }
    Ok(())
}

// Gives each command of a batch its column, from a first one on, and gives the column behind them. A command between two
// devices has one of its own, the others share one.
fn place_members(script: &Script, members: &[u32], columns: &mut [u32], from: u32) -> u32 {
    let mut next = from;
    let mut shared = None;
    for number in members {
        let place = (*number as usize).saturating_sub(1);
        if let Some(column) = columns.get_mut(place) {
            *column = match (is_between(script, *number), shared) {
                (false, Some(taken)) => taken,
                (between, _) => {
                    if !between {
                        shared = Some(next);
                    }
                    let own = next;
                    next = next.saturating_add(1);
                    own
                }
            };
        }
    }
    next
}

// Whether the command of that number works on two devices.
fn is_between(script: &Script, number: u32) -> bool {
    if number == 0 || number as usize > script.commands() {
        return false;
    }
    devices_of(script.command(number)).1.is_some()
}

// The most columns of a chart with texts in it.
const MOST_LABELLED: usize = 500;

/// The layout of a chart. The texts at its left take `left` columns of a terminal, and the devices' names take `names`.
pub fn layout_of(
    alloc: Global,
    script: &Script,
    columned: &Columned,
    left: usize,
    names: usize,
) -> Result<Layout, AllocError> {
    let labelled = columned.width() <= MOST_LABELLED;
    let left = (left.clamp(10, 30) * 13 / 2 + 26) as u16;
    let room = (names.min(20) * 9 + 16) as u16;
    let mut layout = Layout::new(alloc, left, script.devices() as u16, labelled)?;
    let digits = digits_of(alloc, script, columned)?;
    for most in &digits {
        layout.push_column(if labelled { width_of(*most) } else { 8 }, room)?;
    }
    Ok(layout)
}

// The width of a column whose number has that many digits.
fn width_of(digits: u16) -> u16 {
    digits.clamp(3, 9) * 7 + 13
}

// For each column the digits of the greatest picture number that a change in it names.
fn digits_of(alloc: Global, script: &Script, columned: &Columned) -> Result<Vec<u16>, AllocError> {
    let mut digits = vec![in alloc; 1; columned.width()]?;
    for (place, column) in columned.columns.iter().enumerate() {
        if let Some(most) = digits.get_mut(*column as usize) {
            *most = digits_at(script, place).max(*most);
        }
    }
    Ok(digits)
}

// The digits of the picture number that the command at a place names; 1 if it names none.
fn digits_at(script: &Script, place: usize) -> u16 {
    if place >= script.commands() {
        return 1;
    }
    match picture_of(script.command(place as u32 + 1)) {
        0..=9 => 1,
        10..=99 => 2,
        100..=999 => 3,
        1_000..=9_999 => 4,
        10_000..=99_999 => 5,
        100_000..=999_999 => 6,
        1_000_000..=9_999_999 => 7,
        10_000_000..=99_999_999 => 8,
        _ => 9,
    }
}

/// The picture's number that a change names; 0 of another command.
pub fn picture_of(command: &Command) -> u32 {
    match command {
        Command::New { picture, .. }
        | Command::Edit { picture, .. }
        | Command::Remove { picture, .. } => picture.value(),
        _ => 0,
    }
}
