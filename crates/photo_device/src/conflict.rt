// A picture of which a device holds more than one version.
use crate::VersionList;
use photo_record::PicNo;
use std::marker::Model;

/// A picture of which a device holds two or more versions, and these versions in order.
#[derive(Debug, Drop)]
pub struct Conflict {
    pub picture: PicNo,
    pub versions: VersionList,
}

impl Model for Conflict {
    ghost use Rattle.photo_model.specs.Conflicts as spec;

    ghost Value = { spec.Conflict };

    ghost view = { λ c. record { picture = c.picture; versions = c.versions } };
}
