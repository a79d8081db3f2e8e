// How authors and versions are shown without device names: `0:3`, and `0.1:3` in epoch 1.
ghost use Rattle.std.specs.Prelude.{Some};
ghost use Rattle.photo_version.specs.Showing.{author_text, version_text};

use crate::{Author, Version};
use std::fmt;

impl fmt::Display for Author {
    ghost output = { λ author. Some (author_text author) };

    fn fmt<W: fmt::Write>(&self, f: &mut fmt::Formatter<W>) -> fmt::Result {
        let device = self.value();
        let epoch = self.epoch();
        write!(f, "{device}")?;
        if epoch != 0 {
            write!(f, ".{epoch}")?;
        }
        Ok(())
    }
}

impl fmt::Display for Version {
    ghost output = { λ version. Some (version_text version) };

    fn fmt<W: fmt::Write>(&self, f: &mut fmt::Formatter<W>) -> fmt::Result {
        let author = self.author();
        let number = self.n();
        write!(f, "{author}:{number}")
    }
}
