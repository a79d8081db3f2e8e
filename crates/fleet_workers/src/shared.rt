// What all workers of a run share.
ghost use Rattle.std.specs.Prelude.{◌≡◌, IfOk};
ghost use Rattle.std.specs.Arc.{arc_value};

use crate::gate::Gate;
use photo_script::Script;
use std::alloc::AllocError;
use std::sync::Arc;
use work_ledger::{Books, Ledger};

// The script that the workers run, the ledger in which they count and the gate that they call.
#[derive(Drop)]
pub(crate) struct Shared<B: Books, G: Gate> {
    pub script: Arc<Script>,
    pub ledger: Arc<Ledger<B>>,
    pub gate: Arc<G>,
}

impl<B: Books, G: Gate> Shared<B, G> {
    // Makes one more owner of each. Its only error is want of memory.
    pub(crate) fn try_clone(&self) -> Result<Shared<B, G>, AllocError>
        ensures { IfOk result (λ copy. arc_value copy.script ≡ arc_value self.now.script) }
    {
        let script = Arc::try_clone(&self.script)?;
        let ledger = Arc::try_clone(&self.ledger)?;
        let gate = Arc::try_clone(&self.gate)?;
        Ok(Shared {
            script,
            ledger,
            gate,
        })
    }

    pub(crate) fn script(&self) -> &Script
        ensures { result.now ≡ arc_value self.now.script }
    {
        &*self.script
    }
}
