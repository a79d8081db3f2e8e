// One worker's loop.
ghost use Rattle.std.specs.Prelude.{◌≡◌, [], ◌∷◌, IfOk};
ghost use Rattle.std.specs.Arc.{arc_value};
ghost use Rattle.photo_script.specs.Reports.{answer_of};
ghost use Rattle.fleet_workers.specs.Counting.{kind_told};
ghost use Rattle.fleet_workers.specs.Jobs.{MayStart, HasWorked};

use crate::gate::Gate;
use crate::one::run_one;
use crate::shared::Shared;
use crate::work::{Done, Job};
use photo_script::Report;
use std::alloc::{AllocError, Global};
use std::sync::Wait;
use work_ledger::{Books, Kind, Share};

// Runs the jobs one after another, and counts them in the share. Its only error is want of memory.
pub(crate) fn run_jobs<B: Books, G: Gate, R: Wait>(
    rt: &R,
    alloc: Global,
    shared: &Shared<B, G>,
    share: &mut Share<B>,
    jobs: Vec<Job>,
) -> Result<Vec<Done>, AllocError>
    requires { MayStart (arc_value shared.now.script) jobs.items share.old }
    ensures { IfOk result (λ done. HasWorked (arc_value shared.now.script) jobs.items done.items share.old share.new) }
{
    let mut done = Vec::new(alloc);
    for job in jobs {
        let it = run_job(rt, alloc, shared, share, job)?;
        done.push(it)?;
    }
    Ok(done)
}

// Calls the gate, runs the job, counts it, and calls the gate with the totals that a glance at the ledger gives.
fn run_job<B: Books, G: Gate, R: Wait>(
    rt: &R,
    alloc: Global,
    shared: &Shared<B, G>,
    share: &mut Share<B>,
    job: Job,
) -> Result<Done, AllocError>
    requires { MayStart (arc_value shared.now.script) (job ∷ []) share.old }
    ensures { IfOk result (λ done. HasWorked (arc_value shared.now.script) (job ∷ []) (done ∷ []) share.old share.new) }
{
    let number = job.number;
    shared.gate.before(number);
    let done = run_one(alloc, shared.script().command(number), job)?;
    shared.ledger.count(rt, share, kind_of(&done.report));
    shared.gate.after(number, shared.ledger.glance(rt, share));
    Ok(done)
}

// The kind of a command, by the report on it.
fn kind_of(report: &Report) -> Kind
    ensures { result ≡ kind_told (answer_of report.now) }
{
    match report {
        Report::Made { .. }
        | Report::NotHeld
        | Report::NotNarrower
        | Report::Narrowed(_)
        | Report::Refiltered { .. } => Kind::Change,
        Report::Pulled(counts) => Kind::Pull {
            taken: counts.taken,
            handed: counts.handed,
        },
        Report::Preview(_)
        | Report::Listed { .. }
        | Report::Conflicts { .. }
        | Report::KnowledgeOf { .. }
        | Report::Knows(_) => Kind::Report,
    }
}
