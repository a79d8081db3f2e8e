// What a pull finds between a target and a source.
ghost use Rattle.std.specs.Prelude.{IfOk, OnErr};
ghost use Rattle.photo_pull.specs.Findings.{AreNews, IsDelta, IsSomething};

use crate::PullCounts;
use crate::filtered::{count_of, dropped_of, heard_of};
use crate::selection::is_empty;
use item_knowledge::Knowledge;
use photo_device::{Device, Selection, SharedHeld};
use photo_filter_rules::covers;
use std::alloc::{AllocError, Global};

/// What a pull finds. The target takes what its filter matches, and only notices the rest.
#[derive(Debug, Drop)]
pub(crate) struct PullDelta {
    /// Whether the target learns all that the source knows.
    pub learned: bool,
    /// What the target drops.
    pub dropped: Selection,
    /// What the target hears of in the source's store.
    pub heard: Vec<SharedHeld>,
    /// What the target takes from the source's out.
    pub handed: Vec<SharedHeld>,
}

/// The delta of a pull with this news. The only error is refused memory.
pub(crate) fn delta_between(
    alloc: Global,
    news: Selection,
    target: &Device,
    source: &Device,
) -> Result<PullDelta, AllocError>
    requires { AreNews target.now source.now news }
    ensures delta { IfOk result (λ delta. IsDelta target.now source.now delta) }
    ensures wanted { OnErr result (IsSomething target.now source.now) }
{
    let learned = covers(source.filter(), target.filter());
    let stored = dropped_of(alloc, &news, learned, source, target.store())?;
    let waiting = dropped_of(alloc, &news, false, source, target.out())?;
    let dropped = Selection { stored, waiting };
    let Selection { stored, waiting } = news;
    let heard = heard_of(target.filter(), &dropped, stored);
    Ok(PullDelta {
        learned,
        dropped,
        heard,
        handed: waiting,
    })
}

impl PullDelta {
    ghost use Rattle.std.specs.Prelude.{◌≡◌, true, false};
    ghost use Rattle.photo_model.specs.Device.{ModelDevice};
    ghost use Rattle.photo_device.specs.Device.{Shows};
    ghost use Rattle.photo_model.specs.Pull.{counts_of};
    ghost use Rattle.photo_pull.specs.Findings.{IsDelta, IsNothing};

    /// The five counts of the pull. Only the contract needs the source.
    pub fn counts(&self, target: &Device, source: &Device) -> PullCounts
        requires { IsDelta target.now source.now self.now }
        ensures { (t s : ModelDevice) → Shows target.now t → Shows source.now s → result ≡ counts_of t s }
    {
        let taken = count_of(target.filter(), &self.heard);
        PullCounts {
            taken: taken as u64,
            handed: self.handed.len() as u64,
            notices: (self.heard.len() - taken) as u64,
            dropped: self.dropped.stored.len() as u64 + self.dropped.waiting.len() as u64,
            learned: self.learned,
        }
    }

    /// Whether the target hears of nothing, is handed nothing and drops nothing, and already knows what the source may teach.
    pub fn is_nothing(&self, known: &Knowledge, taught: &Knowledge) -> bool
        ensures nothing { result ≡ true → IsNothing self.now known.now taught.now }
        ensures something { result ≡ false → IsNothing self.now known.now taught.now → ⊥ }
    {
        let none_heard = self.heard.is_empty() && self.handed.is_empty();
        is_empty(&self.dropped) && none_heard && (!self.learned || known.has_all(taught))
    }
}
