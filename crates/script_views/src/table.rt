//! A table for a terminal: each column is as wide as its widest cell.
use crate::padding::missing;
use std::alloc::{AllocError, Global};
use unicode_width::UnicodeWidthStr;

// Between two columns.
const GAP: usize = 2;
// How many columns each part of a table has that is cut.
const FIRST: usize = 2;

/// Rows of equally many cells.
#[derive(Drop)]
pub struct Table {
    /// The texts of the cells, row by row, with nothing between them.
    pub cells: String,
    // Where each cell ends.
    ends: Vec<usize>,
    columns: usize,
    alloc: Global,
}

impl Table {
    /// A table of `columns` columns, without rows.
    pub fn new(alloc: Global, columns: usize) -> Table {
        Table {
            cells: String::new(alloc),
            ends: Vec::new(alloc),
            columns,
            alloc,
        }
    }

    /// Ends a cell: it has what was appended since the last one.
    pub fn end_cell(&mut self) -> Result<(), AllocError> {
        self.ends.push(self.cells.len())?;
        Ok(())
    }

    /// Appends the table to a text, a line for each row. A table wider than `width` columns of a terminal becomes several,
    /// each with the first columns; 0 sets no limit.
    pub fn push_to(&self, text: &mut String, width: usize) -> Result<(), AllocError> {
        let mut widths = vec![in self.alloc; 0; self.columns]?;
        self.widen(&mut widths);
        self.push_parts(text, &widths, width)
    }

    // The parts of the table that are no wider than that, but for those of a single column beside the first ones.
    fn push_parts(
        &self,
        text: &mut String,
        widths: &[usize],
        width: usize,
    ) -> Result<(), AllocError> {
        let room = room_beside(widths, width);
        let (mut from, mut used) = (FIRST, 0usize);
        for column in FIRST..self.columns {
            let wanted = width_at(widths, column).saturating_add(GAP);
            if used.saturating_add(wanted) > room && column > from {
                self.push_part(text, widths, from, column)?;
                text.push_str("\n")?;
                from = column;
                used = 0;
            }
            used = used.saturating_add(wanted);
        }
        self.push_part(text, widths, from, self.columns)
    }

    fn push_part(
        &self,
        text: &mut String,
        widths: &[usize],
        from: usize,
        end: usize,
    ) -> Result<(), AllocError> {
        for row in 0..self.ends.len() / self.columns.max(1) {
            self.push_row(text, widths, row, from, end)?;
        }
        Ok(())
    }

    // The last cell of a row has no spaces after it.
    fn push_row(
        &self,
        text: &mut String,
        widths: &[usize],
        row: usize,
        from: usize,
        end: usize,
    ) -> Result<(), AllocError> {
        let first = row.saturating_mul(self.columns);
        let mut spaces = 0;
        for column in 0..end {
            if column < FIRST || column >= from {
                push_spaces(text, spaces)?;
                let cell = self.cell_at(first.saturating_add(column));
                text.push_str(cell)?;
                spaces = missing(cell, width_at(widths, column)).saturating_add(GAP);
            }
        }
        text.push_str("\n")
    }

    // Makes each column as wide as its widest cell.
    fn widen(&self, widths: &mut [usize]) {
        let (mut from, mut column) = (0, 0);
        for end in &self.ends {
            if let Some(widest) = widths.get_mut(column) {
                *widest = self.cell(from, *end).width().max(*widest);
            }
            from = *end;
            column = self.behind(column);
        }
    }

    // The cell of that number, row by row.
    fn cell_at(&self, place: usize) -> &str {
        let end = self.ends.get(place).copied().unwrap_or(0);
        let from = if place == 0 {
            0
        } else {
            self.ends.get(place - 1).copied().unwrap_or(0)
        };
        self.cell(from, end)
    }

    fn cell(&self, from: usize, end: usize) -> &str {
        self.cells.get(from..end).unwrap_or("")
    }

    // The column behind another, which is the first one behind the last.
    fn behind(&self, column: usize) -> usize {
        let next = column.saturating_add(1);
        if next < self.columns { next } else { 0 }
    }
}

fn width_at(widths: &[usize], column: usize) -> usize {
    widths.get(column).copied().unwrap_or(0)
}

// The width that the first columns leave.
fn room_beside(widths: &[usize], width: usize) -> usize {
    if width == 0 {
        return usize::MAX;
    }
    let mut room = width.saturating_add(GAP);
    for column in 0..FIRST {
        room = room.saturating_sub(width_at(widths, column).saturating_add(GAP));
    }
    room
}

// Appends `count` spaces to a text.
fn push_spaces(text: &mut String, count: usize) -> Result<(), AllocError> {
    for _ in 0..count {
        text.push_str(" ")?;
    }
    Ok(())
}
