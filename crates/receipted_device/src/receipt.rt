//! Receipts.
use photo_record::PicNo;
use photo_version::{Author, Version};

/// A receipt: the giver, a device in an epoch, handed over that version of that picture. Receipts are ordered by giver, then
/// picture, then version.
#[derive(Clone, Copy, Debug, PartialEq, Eq, PartialOrd, Ord)]
pub struct Receipt {
    /// Who handed the version over.
    pub giver: Author,
    /// The version's picture.
    pub picture: PicNo,
    /// The version.
    pub version: Version,
}
