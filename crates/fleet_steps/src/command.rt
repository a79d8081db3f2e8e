// Runs one command on its one or two devices, and gives the report.
ghost use Rattle.std.specs.Prelude.{◌≡◌, true, ◌<◌, Some, None, Err, IsSome, IfOk, IfSome, OnOk, OnErr};
ghost use Rattle.photo_filter_rules.specs.Covers.{covers};
ghost use Rattle.photo_version.specs.Author.{epoch_of_author};
ghost use Rattle.photo_model.specs.Device.{ModelDevice, is_held};
ghost use Rattle.photo_device.specs.Device.{Shows, IsAsItWas};
ghost use Rattle.item_knowledge.specs.Fragments.{is_normal, knows};
ghost use Rattle.fleet_model.specs.Contents.{devices_of};
ghost use Rattle.fleet_model.specs.Answers.{Knows};
ghost use Rattle.photo_script.specs.Reports.{Plain, KnowledgeOf, Tells, answer_of};
ghost use Rattle.fleet_model.specs.Runs.{effect, changing, narrowing, refiltering, pulling, previewing};
ghost use Rattle.photo_record.specs.declared.record.Record.TheVariants.{Removed};
ghost use Rattle.photo_device.specs.declared.fault.ChangeFault.TheVariants.{NoMemory};
ghost use Rattle.fleet_steps.specs.Changes.{told_of};
ghost use Rattle.fleet_steps.specs.Between.{MayPull};
ghost use Rattle.fleet_steps.specs.Wanting.{MayWantMemory};

use item_knowledge::Knowledge;
use photo_device::{ChangeFault, ConflictList, Device, NarrowFault, Place};
use photo_filter_rules::{Filter, covers};
use photo_pull::{preview, pull};
use photo_record::{PicNo, Record};
use photo_script::{Command, Report};
use photo_version::Version;
use std::alloc::{AllocError, Global};

/// Runs a command that works on one device, and gives the report. After want of memory the device is as it was. A change that
/// is refused never wants memory, nor does the question whether a version is known.
pub fn run_command(
    alloc: Global,
    command: &Command,
    device: &mut Device,
) -> Result<Report, AllocError>
    requires alone { (devices_of command.now).1 ≡ None }
    requires room { device.old.counter < 4_294_967_295 }
    requires epoch { epoch_of_author device.old.author < 4_294_967_295 }
    ensures device { OnOk result ((m : ModelDevice) → Shows device.old m → Shows device.new (effect command.now m None).first) }
    ensures report { IfOk result
        (λ report. (m : ModelDevice) → Shows device.old m → Tells (answer_of report) (effect command.now m None).report) }
    ensures err { OnErr result (IsAsItWas device.old device.new) }
    ensures staged { device.old.staged ≡ None → device.new.staged ≡ None }
    ensures memory { OnErr result ((m : ModelDevice) → Shows device.old m → MayWantMemory command.now m) }
{
    match command {
        Command::New {
            picture,
            record,
            ..
        } => {
            let (version, place) = device.make(*picture, record)?;
            Ok(Report::Made { version, place })
        }
        Command::Edit {
            picture,
            record,
            ..
        } => run_edit(device, *picture, record),
        Command::Remove { picture, .. } => run_remove(device, *picture),
        Command::Pull { .. } | Command::Preview { .. } => unreachable!(),
        Command::Narrow { filter, .. } => run_narrow(device, filter),
        Command::Refilter { filter, .. } => run_refilter(device, filter),
        Command::List { device: number } => {
            let store = device.store().to_list()?;
            let out = device.out().to_list()?;
            Ok(Report::Listed {
                device: *number,
                store,
                out,
            })
        }
        Command::Conflicts { device: number } => {
            let pictures = ConflictList::new(device.conflicts()?);
            Ok(Report::Conflicts {
                device: *number,
                pictures,
            })
        }
        Command::Knowledge { device: number } => knowledge_of(alloc, *number, device.knowledge()),
        Command::Knows {
            picture,
            version,
            ..
        } => Ok(knows_of(device.knowledge(), *picture, *version)),
    }
}

/// Runs a command that works on two devices, and gives the report. After want of memory both are as they were.
pub fn run_between(
    alloc: Global,
    command: &Command,
    target: &mut Device,
    source: &mut Device,
) -> Result<Report, AllocError>
    requires two { IsSome (devices_of command.now).1 }
    requires pull { MayPull target.old source.old }
    ensures target { OnOk result ((t s : ModelDevice) → Shows target.old t → Shows source.old s
        → Shows target.new (effect command.now t (Some s)).first) }
    ensures source { OnOk result ((t s : ModelDevice) → Shows target.old t → Shows source.old s
        → IfSome (effect command.now t (Some s)).second (Shows source.new)) }
    ensures report { IfOk result (λ report. (t s : ModelDevice) → Shows target.old t → Shows source.old s
        → Tells (answer_of report) (effect command.now t (Some s)).report) }
    ensures target_kept { OnErr result (IsAsItWas target.old target.new) }
    ensures source_kept { OnErr result (IsAsItWas source.old source.new) }
    ensures target_unstaged { target.old.staged ≡ None → target.new.staged ≡ None }
    ensures source_unstaged { source.old.staged ≡ None → source.new.staged ≡ None }
{
    match command {
        Command::Pull { .. } => run_pull(alloc, target, source),
        Command::Preview { .. } => run_preview(alloc, target, source),
        _ => unreachable!(),
    }
}

/// Runs a pull of one device from another, and gives the report. After want of memory both are as they were.
pub fn run_pull(
    alloc: Global,
    target: &mut Device,
    source: &mut Device,
) -> Result<Report, AllocError>
    requires { MayPull target.old source.old }
    ensures target { OnOk result
        ((t s : ModelDevice) → Shows target.old t → Shows source.old s → Shows target.new (pulling t (Some s)).first) }
    ensures source { OnOk result ((t s : ModelDevice) → Shows target.old t → Shows source.old s
        → IfSome (pulling t (Some s)).second (Shows source.new)) }
    ensures report { IfOk result (λ report. (t s : ModelDevice) → Shows target.old t → Shows source.old s
        → Tells (answer_of report) (pulling t (Some s)).report) }
    ensures target_kept { OnErr result (IsAsItWas target.old target.new) }
    ensures source_kept { OnErr result (IsAsItWas source.old source.new) }
    ensures target_unstaged { target.new.staged ≡ None }
    ensures source_unstaged { source.new.staged ≡ None }
{
    let counts = pull(alloc, target, source)?;
    Ok(Report::Pulled(counts))
}

// The report on a preview: what a pull by the target from the source would move and tell.
fn run_preview(alloc: Global, target: &Device, source: &Device) -> Result<Report, AllocError>
    requires { MayPull target.now source.now }
    ensures { IfOk result (λ report. (t s : ModelDevice) → Shows target.now t → Shows source.now s
        → Tells (answer_of report) (previewing t (Some s)).report) }
{
    let counts = preview(alloc, target, source)?;
    Ok(Report::Preview(counts))
}

// The report on whether a version of a picture is known.
fn knows_of(knowledge: &Knowledge, picture: PicNo, version: Version) -> Report
    ensures given { answer_of result ≡ Plain (Knows (knows knowledge.now.known picture version)) }
    ensures above_zero { 0 < picture }
{
    Report::Knows(knowledge.knows(picture, version))
}

// The report on a device's knowledge, in normal form. Its only error is want of memory.
fn knowledge_of(alloc: Global, device: u16, knowledge: &Knowledge) -> Result<Report, AllocError>
    ensures given { IfOk result (λ report. answer_of report ≡ KnowledgeOf device knowledge.now.known) }
    ensures normal { is_normal knowledge.now.known ≡ true }
{
    // `fragments()` is called because its contract says that a knowledge is in normal form, which `normal` promises.
    let _count = knowledge.fragments();
    Ok(Report::KnowledgeOf {
        device,
        knowledge: Box::new(alloc, knowledge.try_clone()?)?,
    })
}

#[tactic(auto, using(crate::proofs::Changed::change_device, crate::proofs::Changed::change_report, crate::proofs::Changed::change_err, crate::proofs::Changed::change_wants))]
fn run_edit(device: &mut Device, picture: PicNo, content: &Record) -> Result<Report, AllocError>
    requires { device.old.counter < 4_294_967_295 }
    ensures device { OnOk result ((m : ModelDevice) → Shows device.old m → Shows device.new (changing m None picture content.now).first) }
    ensures report { IfOk result (λ report. (m : ModelDevice) → Shows device.old m
        → Tells (answer_of report) (changing m None picture content.now).report) }
    ensures err { OnErr result (IsAsItWas device.old device.new) }
    ensures staged { device.old.staged ≡ None → device.new.staged ≡ None }
    ensures memory { OnErr result ((m : ModelDevice) → Shows device.old m → is_held m picture ≡ true) }
{
    report_on(device.edit(picture, content))
}

#[tactic(auto, using(crate::proofs::Changed::change_device, crate::proofs::Changed::change_report, crate::proofs::Changed::change_err, crate::proofs::Changed::change_wants))]
fn run_remove(device: &mut Device, picture: PicNo) -> Result<Report, AllocError>
    requires { device.old.counter < 4_294_967_295 }
    ensures device { OnOk result ((m : ModelDevice) → Shows device.old m → Shows device.new (changing m None picture Removed).first) }
    ensures report { IfOk result (λ report. (m : ModelDevice) → Shows device.old m
        → Tells (answer_of report) (changing m None picture Removed).report) }
    ensures err { OnErr result (IsAsItWas device.old device.new) }
    ensures staged { device.old.staged ≡ None → device.new.staged ≡ None }
    ensures memory { OnErr result ((m : ModelDevice) → Shows device.old m → is_held m picture ≡ true) }
{
    report_on(device.remove(picture))
}

// The script keeps the filter, so the device gets a copy, made only once the filter is known to be narrower.
fn run_narrow(device: &mut Device, filter: &Filter) -> Result<Report, AllocError>
    ensures device { OnOk result ((m : ModelDevice) → Shows device.old m → Shows device.new (narrowing m None filter.now).first) }
    ensures report { IfOk result
        (λ report. (m : ModelDevice) → Shows device.old m → Tells (answer_of report) (narrowing m None filter.now).report) }
    ensures err { OnErr result (IsAsItWas device.old device.new) }
    ensures staged { device.old.staged ≡ None → device.new.staged ≡ None }
    ensures memory { OnErr result (covers device.old.tree filter.now ≡ true) }
{
    if !covers(device.filter(), filter) {
        return Ok(Report::NotNarrower);
    }
    match device.narrow(filter.try_clone()?) {
        Ok(count) => Ok(Report::Narrowed(count)),
        Err((_, NarrowFault::NotNarrower)) => unreachable!(),
        Err((_, NarrowFault::NoMemory)) => Err(AllocError),
    }
}

// The script keeps the filter, so the device gets a copy. Its only error is want of memory.
fn run_refilter(device: &mut Device, filter: &Filter) -> Result<Report, AllocError>
    requires { epoch_of_author device.old.author < 4_294_967_295 }
    ensures device { OnOk result ((m : ModelDevice) → Shows device.old m → Shows device.new (refiltering m None filter.now).first) }
    ensures report { IfOk result
        (λ report. (m : ModelDevice) → Shows device.old m → Tells (answer_of report) (refiltering m None filter.now).report) }
    ensures err { OnErr result (IsAsItWas device.old device.new) }
    ensures staged { device.old.staged ≡ None → device.new.staged ≡ None }
{
    match device.refilter(filter.try_clone()?) {
        Ok((store, out)) => Ok(Report::Refiltered { store, out }),
        Err((_, refused)) => Err(refused),
    }
}

// The report on a change of a picture. Its only error is want of memory.
fn report_on(change: Result<(Version, Place), ChangeFault>) -> Result<Report, AllocError>
    ensures ok { IfOk result (λ report. told_of change ≡ Some (answer_of report)) }
    ensures err { OnErr result (change ≡ Err NoMemory) }
{
    match change {
        Ok((version, place)) => Ok(Report::Made { version, place }),
        Err(ChangeFault::NotHeld) => Ok(Report::NotHeld),
        Err(ChangeFault::NoMemory) => Err(AllocError),
    }
}
