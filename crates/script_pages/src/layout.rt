//! The geometry of a chart: columns from left to right, a lane for each device from top to bottom.
ghost use Rattle.std.specs.Prelude.{◌≡◌, ◌+◌, ◌*◌, ◌≤◌};

use std::alloc::{AllocError, Global};

/// How wide the parts of the chart are, in pixels.
#[derive(Drop)]
pub struct Layout {
    /// The room at the left, for the devices' names and filters.
    left: u16,
    /// How many lanes there are.
    lanes: u16,
    /// Whether there is room for texts in the columns.
    pub labelled: bool,
    /// Where each column begins behind the room at the left, and last where the last one ends.
    edges: Vec<u32>,
    /// The middle of each column.
    middles: Vec<u32>,
    /// Where the devices' names are repeated.
    names: Vec<u32>,
}

// The least room at the left.
const LEAST: u64 = 20;
// The distance between the names and their repetition: about a screen's width.
const SCREEN: u32 = 1_200;
// The first lane, and from a lane to the next.
const TOP: u64 = 84;

const LANE: u64 = 74;
// Below the last lane: room for what is said of it and for the legend.
const BOTTOM: u64 = 110;
// The legend's width.
const LEGEND: u64 = 880;
// At the right.
const RIGHT: u64 = 40;

impl Layout {
    /// No column yet.
    pub fn new(alloc: Global, left: u16, lanes: u16, labelled: bool) -> Result<Layout, AllocError> {
        let edges = vec![in alloc; 0]?;
        Ok(Layout {
            left,
            lanes,
            labelled,
            edges,
            middles: Vec::new(alloc),
            names: Vec::new(alloc),
        })
    }

    /// Adds a column of this width. A screen's width after the last names they are repeated before it, in a gap of this much
    /// room.
    pub fn push_column(&mut self, width: u16, room: u16) -> Result<(), AllocError> {
        let mut from = self.edges.last().copied().unwrap_or(0);
        let names = self.names.last().copied().unwrap_or(0);
        if from.saturating_sub(names) > SCREEN {
            self.names.push(from)?;
            from = from.saturating_add(u32::from(room));
            if let Some(edge) = self.edges.last_mut() {
                *edge = from;
            }
        }
        self.middles
            .push(from.saturating_add(u32::from(width / 2)))?;
        self.edges.push(from.saturating_add(u32::from(width)))?;
        Ok(())
    }

    /// Where the lanes begin.
    pub fn start(&self) -> u64
        ensures least { 20 ≤ result }
        ensures most { result ≤ 65_535 }
    {
        u64::from(self.left).max(LEAST)
    }

    /// Where a column begins; where the last one ends if there is none of that number.
    pub fn edge(&self, column: u32) -> u64
        ensures least { 20 ≤ result }
        ensures most { result ≤ 4_295_032_830 }
    {
        match self.edges.get(column as usize) {
            Some(edge) => self.start() + u64::from(*edge),
            None => self.end(),
        }
    }

    /// The middle of a column.
    pub fn x(&self, column: u32) -> u64
        ensures least { 20 ≤ result }
        ensures most { result ≤ 4_295_032_830 }
    {
        match self.middles.get(column as usize) {
            Some(middle) => self.start() + u64::from(*middle),
            None => self.end(),
        }
    }

    /// Where the lanes end.
    pub fn end(&self) -> u64
        ensures least { 20 ≤ result }
        ensures most { result ≤ 4_295_032_830 }
    {
        self.start() + u64::from(self.edges.last().copied().unwrap_or(0))
    }

    /// Where the names are repeated, from the left.
    pub fn names(&self) -> &[u32] {
        &self.names
    }

    /// The lane of a device.
    pub fn y(&self, device: u16) -> u64
        ensures { result ≡ 84 + 74 * device }
    {
        TOP + LANE * u64::from(device)
    }

    /// The whole width.
    pub fn width(&self) -> u64 {
        (self.end() + RIGHT).max(LEGEND)
    }

    /// The whole height.
    pub fn height(&self) -> u64 {
        TOP + LANE * u64::from(self.lanes) + BOTTOM - LANE
    }

    /// Where the legend stands.
    pub fn legend(&self) -> u64
        ensures { 60 ≤ result }
    {
        TOP + LANE * u64::from(self.lanes) + 50 - LANE
    }
}
