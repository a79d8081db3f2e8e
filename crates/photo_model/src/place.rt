// Where a device holds a version.
/// Where a device holds a version.
#[derive(Clone, Copy, Debug, PartialEq, Eq, Hash)]
pub enum Place {
    /// In the store: the versions that the device is to keep.
    Store,
    /// In the out: the versions that wait until another device takes them.
    Out,
}
