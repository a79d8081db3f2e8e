// The pictures of a group.
use crate::rows::Rows;
use std::alloc::{AllocError, Global};
use std::marker::Model;

/// The pictures of a group, at least one. A group of one picture takes no memory.
#[derive(Debug, Drop)]
pub(crate) struct Group {
    first: u64,
    others: Vec<u64>,
}

impl Model for Group {
    ghost use Rattle.std.specs.Prelude.{ℕ, List, ◌∷◌};
    ghost use Rattle.std.specs.Coded.{coded_ℕ, coded_list};

    ghost Value = { List ℕ };

    ghost coded = { coded_list coded_ℕ };

    ghost view = { λ g. g.first ∷ g.others.items };
}

impl Group {
    ghost use Rattle.std.specs.Prelude.{◌≡◌, ◌++◌, ◌∷◌, [], OnOk, OnErr};

    /// The group of one picture.
    pub(crate) fn new(alloc: Global, picture: u64) -> Group
        ensures { result ≡ picture ∷ [] }
    {
        Group {
            first: picture,
            others: Vec::new(alloc),
        }
    }

    /// Appends a picture. A refusal changes nothing.
    pub(crate) fn push(&mut self, picture: u64) -> Result<(), AllocError>
        ensures pushed { OnOk result (self.new ≡ self.old ++ picture ∷ []) }
        ensures refused { OnErr result (self.new ≡ self.old) }
    {
        self.others.push(picture)?;
        Ok(())
    }

    /// Appends the pictures to `out`, as one row.
    pub(crate) fn place(&self, out: &mut Rows) -> Result<(), AllocError>
        ensures { OnOk result (out.new ≡ out.old ++ self.now ∷ []) }
    {
        out.place_first(self.first, &self.others)?;
        Ok(())
    }
}
