// Commands.
use photo_filter_rules::Filter;
use photo_record::{PicNo, Record};
use photo_version::Version;

/// A command of a script. A device is given by its place in order of declaration, from 0.
#[derive(Debug, Drop)]
pub enum Command {
    /// `new`: the device makes a version of a picture; it needn't hold one.
    New {
        device: u16,
        picture: PicNo,
        record: Record,
    },
    /// `edit`: the device makes a new version of a picture of which it holds a version.
    Edit {
        device: u16,
        picture: PicNo,
        record: Record,
    },
    /// `remove`: the device makes a version that removes a picture of which it holds a version.
    Remove {
        device: u16,
        picture: PicNo,
    },
    /// `pull`: the target takes and learns from the source, another device.
    Pull {
        target: u16,
        source: u16,
    },
    /// `narrow`: the device takes another filter, if its own covers that one.
    Narrow {
        device: u16,
        filter: Filter,
    },
    /// `refilter`: the device takes any filter and begins its next epoch.
    Refilter {
        device: u16,
        filter: Filter,
    },
    /// `preview`: reports the counts that a pull of the target from the source, another device, would have.
    Preview {
        target: u16,
        source: u16,
    },
    /// `list`: reports all that the device holds.
    List {
        device: u16,
    },
    /// `conflicts`: reports the pictures of which the device holds two or more versions.
    Conflicts {
        device: u16,
    },
    /// `knowledge`: reports all that the device knows.
    Knowledge {
        device: u16,
    },
    /// `knows`: reports whether the device knows a version of a picture. That version needn't exist.
    Knows {
        device: u16,
        picture: PicNo,
        version: Version,
    },
}

/// What a command does: one of three.
#[derive(Clone, Copy, Debug, PartialEq, Eq, Drop)]
pub enum CommandKind {
    /// It changes one device, or is refused.
    Change,
    /// It is a pull.
    Pull,
    /// It asks for a report, and changes nothing.
    Question,
}
