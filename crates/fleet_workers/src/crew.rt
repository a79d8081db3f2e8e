// Runs workers in threads.
ghost use Rattle.std.specs.Prelude.{◌≡◌, ◌⊎◌, ◌+◌, ◌-◌, ◌++◌, ◌≤◌, IfOk, IfErr, OnOk, vec_len};
ghost use Rattle.std.specs.Arc.{arc_value};
ghost use Rattle.work_ledger.specs.Stakes.{stake, less, both, plus, given, IsCountable};
ghost use Rattle.fleet_workers.specs.declared.fault.WorkersError.TheVariants.{NoMemory, NoWorker};
ghost use Rattle.fleet_workers.specs.Counting.{tally_at};
ghost use Rattle.fleet_workers.specs.Jobs.{AreReadyJobs, MayStart, HasWorked, jobs_of, numbers_of, share_for};

use crate::WorkersError;
use crate::gate::Gate;
use crate::shared::Shared;
use crate::tally::tally;
use crate::work::{Done, Finished, Job};
use crate::worker::run_jobs;
use photo_script::Script;
use std::alloc::{AllocError, Global};
use std::snapshot::Snapshot;
use std::sync::Wait;
use std::thread;
use std::thread::{Promise, PromisedHandle, Threads};
use work_ledger::{Books, Share};

// A worker's promise: each of its jobs comes back with its command's effect, and its share has counted them all.
#[derive(Drop)]
struct Worked {
    script: Snapshot<Script>,
    jobs: Snapshot<Vec<Job>>,
}

impl<B: Books> Promise<Result<Finished<B>, AllocError>> for Worked {
    ghost kept_by = { λ p r. IfOk r
        (λ f. HasWorked p.script.value p.jobs.value.items f.done.items (share_for p.script.value p.jobs.value.items) f.share) };
}

// A worker that has to be joined. It isn't `Drop`, so every path joins it.
struct Running<B: Books> {
    handle: PromisedHandle<Result<Finished<B>, AllocError>, Worked>,
}

impl<B: Books> Running<B> {
    fn join<R: Threads>(self, rt: &R) -> Result<Finished<B>, WorkersError>
        ensures ok { let script = self.handle.promise.script.value in let jobs = self.handle.promise.jobs.value.items in
            IfOk result (λ f. HasWorked script jobs f.done.items (share_for script jobs) f.share) }
        ensures err { IfErr result (λ e. e ≡ NoMemory) }
    {
        let Running { handle } = self;
        Ok(handle.join(rt)?)
    }
}

// Runs the first group's jobs on the calling thread and each other group's on a thread of its own. It starts the last group's
// thread first, and joins all threads that it started.
pub(crate) fn run_crew<
    B: Books + Send + Sync + 'static,
    G: Gate + 'static,
    R: Threads + Wait + Copy + Send + 'static,
>(
    rt: R,
    alloc: Global,
    shared: &Shared<B, G>,
    share: &mut Share<B>,
    groups: Vec<Vec<Job>>,
) -> Result<Vec<Done>, WorkersError>
    requires start { MayStart (arc_value shared.now.script) (jobs_of groups.items) share.old }
    requires parts { vec_len groups + 1 ≤ share.old.parts }
    ensures ok { IfOk result (λ done. HasWorked (arc_value shared.now.script) (jobs_of groups.items) done.items share.old share.new) }
    ensures err { IfErr result (λ e. (e ≡ NoMemory) ⊎ (e ≡ NoWorker)) }
{
    let mut groups = groups;
    let Some(jobs) = groups.pop() else {
        return Ok(Vec::new(alloc));
    };
    if groups.is_empty() {
        return Ok(run_jobs(&rt, alloc, shared, share, jobs)?);
    }
    // `left()` is called because its contract bounds what the share may count, which each worker's own share needs.
    let _left = share.left();
    let running = start(rt, alloc, shared, share, jobs)?;
    let others = run_crew(rt, alloc, shared, share, groups);
    let finished = running.join(&rt);
    let done = others?;
    let finished = finished?;
    gather(share, done, finished)
}

// Splits a share off for a worker, and starts the worker.
fn start<
    B: Books + Send + Sync + 'static,
    G: Gate + 'static,
    R: Threads + Wait + Copy + Send + 'static,
>(
    rt: R,
    alloc: Global,
    shared: &Shared<B, G>,
    share: &mut Share<B>,
    jobs: Vec<Job>,
) -> Result<Running<B>, WorkersError>
    requires start { MayStart (arc_value shared.now.script) jobs.items share.old }
    requires parts { 2 ≤ share.old.parts }
    ensures ok { IfOk result
        (λ r. (r.handle.promise.script.value ≡ arc_value shared.now.script) × (r.handle.promise.jobs.value ≡ jobs)) }
    ensures share { OnOk result (share.new
        ≡ stake (share.old.parts - 1) (less share.old.left (tally_at (arc_value shared.now.script) (numbers_of jobs.items))) share.old.done) }
    ensures err { IfErr result (λ e. (e ≡ NoMemory) ⊎ (e ≡ NoWorker)) }
{
    let shared = shared.try_clone()?;
    let share = share.split(tally(shared.script(), &jobs));
    spawn(rt, alloc, shared, share, jobs)
}

// Starts a worker that owns its share.
fn spawn<
    B: Books + Send + Sync + 'static,
    G: Gate + 'static,
    R: Threads + Wait + Copy + Send + 'static,
>(
    rt: R,
    alloc: Global,
    shared: Shared<B, G>,
    share: Share<B>,
    jobs: Vec<Job>,
) -> Result<Running<B>, WorkersError>
    requires ready { AreReadyJobs (arc_value shared.script) jobs.items }
    requires share { share ≡ share_for (arc_value shared.script) jobs.items }
    ensures ok { IfOk result
        (λ r. (r.handle.promise.script.value ≡ arc_value shared.script) × (r.handle.promise.jobs.value ≡ jobs)) }
    ensures err { IfErr result (λ e. (e ≡ NoMemory) ⊎ (e ≡ NoWorker)) }
{
    let Shared {
        script,
        ledger,
        gate,
    } = shared;
    let promise = Worked {
        script: Snapshot::of(&*script),
        jobs: Snapshot::of(&jobs),
    };
    let worker = move || -> Result<Finished<B>, AllocError>
        requires ready { AreReadyJobs (arc_value script) jobs.items }
        requires share { share ≡ share_for (arc_value script) jobs.items }
        ensures { IfOk result (λ f. HasWorked (arc_value script) jobs.items f.done.items
            (share_for (arc_value script) jobs.items) f.share) }
    {
        run_alone(
            &rt,
            alloc,
            &Shared {
                script,
                ledger,
                gate,
            },
            share,
            jobs,
        )
    };
    match thread::spawn_with(&rt, promise, worker) {
        Ok(handle) => Ok(Running { handle }),
        Err(refused) => {
            drop(refused);
            Err(WorkersError::NoWorker)
        }
    }
}

// Runs the jobs of a worker that owns its share.
fn run_alone<B: Books, G: Gate, R: Wait>(
    rt: &R,
    alloc: Global,
    shared: &Shared<B, G>,
    share: Share<B>,
    jobs: Vec<Job>,
) -> Result<Finished<B>, AllocError>
    requires ready { AreReadyJobs (arc_value shared.now.script) jobs.items }
    requires share { share ≡ share_for (arc_value shared.now.script) jobs.items }
    ensures { IfOk result (λ f. HasWorked (arc_value shared.now.script) jobs.items f.done.items
        (share_for (arc_value shared.now.script) jobs.items) f.share) }
{
    let mut share = share;
    let done = run_jobs(rt, alloc, shared, &mut share, jobs)?;
    Ok(Finished { share, done })
}

// Takes a worker's share back, and appends its results to those of the others.
fn gather<B: Books>(
    share: &mut Share<B>,
    done: Vec<Done>,
    finished: Finished<B>,
) -> Result<Vec<Done>, WorkersError>
    requires { IsCountable (plus (given share.old.left share.old.done) (given finished.share.left finished.share.done)) }
    ensures done { IfOk result (λ all. all.items ≡ done.items ++ finished.done.items) }
    ensures share { share.new ≡ stake (share.old.parts + finished.share.parts) (plus share.old.left finished.share.left)
        (both share.old.done finished.share.done) }
    ensures err { IfErr result (λ e. e ≡ NoMemory) }
{
    let Finished {
        share: theirs,
        done: last,
    } = finished;
    share.join(theirs);
    let mut done = done;
    let mut last = last;
    done.append(&mut last)?;
    Ok(done)
}
