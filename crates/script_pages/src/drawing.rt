//! What is drawn of a run, in two layers, and the marks that it is drawn with.
use crate::escaping::push_escaped;
use crate::layout::Layout;
use crate::strife::Since;
use std::alloc::{AllocError, Global};

/// What is drawn of a run: what lies below, and what lies above it.
#[derive(Drop)]
pub struct Drawing {
    pub layout: Layout,
    pub below: String,
    pub above: String,
    /// Since when each device has conflicts, if it has some.
    pub strife: Vec<Option<Since>>,
    pub alloc: Global,
}

/// Where a mark stands: in which column, on which device's lane.
#[derive(Clone, Copy)]
pub struct Spot {
    pub column: u32,
    pub device: u16,
}

impl Drawing {
    /// An empty drawing. None of the `devices` devices has conflicts.
    pub fn new(alloc: Global, layout: Layout, devices: usize) -> Result<Drawing, AllocError> {
        let strife = vec![in alloc; None; devices]?;
        Ok(Drawing {
            layout,
            below: String::new(alloc),
            above: String::new(alloc),
            strife,
            alloc,
        })
    }

    /// A dot of a class.
    pub fn dot(&mut self, spot: Spot, class: &str, radius: u64) -> Result<(), AllocError> {
        let (x, y) = (self.layout.x(spot.column), self.layout.y(spot.device));
        write!(
            self.above,
            "<circle class=\"{class}\" cx=\"{x}\" cy=\"{y}\" r=\"{radius}\"/>"
        )
    }

    /// A cross.
    pub fn cross(&mut self, spot: Spot) -> Result<(), AllocError> {
        let (x, y) = (self.layout.x(spot.column), self.layout.y(spot.device));
        let (left, right, top, bottom) = (x - 5, x + 5, y - 5, y + 5);
        write!(
            self.above,
            "<path class=\"refused\" d=\"M{left} {top} {right} {bottom}M{right} {top} {left} {bottom}\"/>"
        )
    }

    /// A square.
    pub fn square(&mut self, spot: Spot) -> Result<(), AllocError> {
        let (left, top) = (
            self.layout.x(spot.column) - 5,
            self.layout.y(spot.device) - 5,
        );
        write!(
            self.above,
            "<rect class=\"filter\" x=\"{left}\" y=\"{top}\" width=\"10\" height=\"10\"/>"
        )
    }

    /// A triangle with a mark in it, below the lane, beside the column's middle.
    pub fn alarm(&mut self, spot: Spot) -> Result<(), AllocError> {
        let (x, y) = (self.layout.x(spot.column) + 10, self.layout.y(spot.device));
        let (left, right, top, bottom, foot) = (x - 7, x + 7, y + 5, y + 18, y + 17);
        write!(
            self.above,
            "<path class=\"alarm\" d=\"M{x} {top} {right} {bottom}H{left}z\"/><text class=\"mark mid\" x=\"{x}\" y=\"{foot}\">!</text>"
        )
    }

    /// An arrow from a lane to another one.
    pub fn arrow(&mut self, from: Spot, to: u16, class: &str) -> Result<(), AllocError> {
        let x = self.layout.x(from.column);
        let (start, middle) = (self.layout.y(from.device), self.layout.y(to));
        let tip = if middle > start {
            middle - 4
        } else {
            middle + 4
        };
        write!(
            self.above,
            "<path class=\"{class}\" d=\"M{x} {start}V{tip}\" marker-end=\"url(#tip)\"/>"
        )
    }

    /// A number above a lane, in the middle of its column, where there is room for texts.
    pub fn label(&mut self, spot: Spot, class: &str, number: u32) -> Result<(), AllocError> {
        if !self.layout.labelled {
            return Ok(());
        }
        let (x, y) = (self.layout.x(spot.column), self.layout.y(spot.device) - 10);
        write!(
            self.above,
            "<text class=\"{class}\" x=\"{x}\" y=\"{y}\">{number}</text>"
        )
    }

    /// A text a little right of a spot and below its lane, raised by a number of pixels, where there is room for
    /// texts.
    pub fn note(
        &mut self,
        spot: Spot,
        right: u16,
        higher: u64,
        text: &str,
    ) -> Result<(), AllocError> {
        if !self.layout.labelled {
            return Ok(());
        }
        let x = self.layout.x(spot.column) + u64::from(right);
        let y = (self.layout.y(spot.device) + 16).saturating_sub(higher);
        write!(self.above, "<text class=\"note\" x=\"{x}\" y=\"{y}\">")?;
        push_escaped(&mut self.above, text)?;
        self.above.push_str("</text>")
    }

    /// A letter and a count, five pixels right of a spot, where there is room for texts.
    pub fn count(
        &mut self,
        spot: Spot,
        higher: u64,
        letter: &str,
        count: u64,
    ) -> Result<(), AllocError> {
        if !self.layout.labelled {
            return Ok(());
        }
        let x = self.layout.x(spot.column) + 5;
        let y = (self.layout.y(spot.device) + 16).saturating_sub(higher);
        write!(
            self.above,
            "<text class=\"note\" x=\"{x}\" y=\"{y}\">{letter}{count}</text>"
        )
    }
}
