//! The session: how contracts see it, and its calls.
ghost use Rattle.std.specs.Prelude.{◌≡◌};

use crate::{Fleet, FleetFault};
use photo_device::{Device, Place};
use photo_filter_rules::Filter;
use photo_pull::PullCounts;
use photo_record::{PicNo, Record};
use photo_script::{Command, Report, Script};
use photo_version::Version;
use std::alloc::{AllocError, Global};
use std::marker::Model;

/// A fleet whose calls have no precondition. Contracts see the fleet, and each call promises what the fleet's own call
/// promises.
///
/// After a refusal the fleet is as it was. `NoDevice`, `NoCommand` and `Full` come exactly where they are due; the only other
/// error is want of memory.
#[derive(Debug, Drop)]
pub struct Session {
    fleet: Fleet,
}

impl Model for Session {
    ghost use Rattle.live_fleet.specs.Fleets.{KeptFleet};
    ghost use Rattle.live_fleet.specs.Coding.{fleet_code};

    ghost Value = { KeptFleet };

    ghost coded = { fleet_code };

    ghost view = { λ s. s.fleet };
}

impl Session {
    ghost use Rattle.std.specs.Prelude.{◌≡◌, ◌+◌, ◌<◌, ◌↔◌, [], length, slice_get, IsTrue, IfOk, IfSome, OnOk, OnErr};
    ghost use Rattle.std.specs.Option.{option_copied};
    ghost use Rattle.fleet_model.specs.Contents.{IsWithin, command_of};
    ghost use Rattle.fleet_model.specs.Answers.{Made, Pulled, Preview, Refiltered};
    ghost use Rattle.photo_script.specs.Reports.{Plain, IsAbout, answer_of};
    ghost use Rattle.fleet_model.specs.declared.command.Command.TheVariants.{New, Edit, Remove, Pull, Narrow, Refilter};
    ghost use Rattle.fleet_model.specs.declared.command.Command.TheVariants as asked;
    ghost use Rattle.live_fleet.specs.Answers.{change_answer, narrow_answer};
    ghost use Rattle.live_fleet.specs.Fleets.{HasJoined, HasRun, IsAnswerTo, ShowsFleet, SpeaksOf, after_commands};
    ghost use Rattle.live_fleet.specs.Faults.{RefusesAsDue, IsDueTo, IsDueToDevices, IsDueToNumber, IsDueToQuestion};

    /// Makes a device for each filter, as [`Fleet::new`] does. `Full` comes exactly above 65,536 filters.
    pub fn new(alloc: Global, filters: &[Filter]) -> Result<Session, FleetFault>
        ensures fleet { IfOk result (λ session. ShowsFleet session (after_commands filters.now [])) }
        ensures long { IfOk result (λ session. length session.devices ≡ length filters.now) }
        ensures count { IfOk result (λ session. session.commands ≡ 0) }
        ensures refused { RefusesAsDue (IsDueToDevices (length filters.now)) result }
    {
        if filters.len() > 65_536 {
            return Err(FleetFault::Full);
        }
        let Ok(fleet) = Fleet::new(alloc, filters) else {
            return Err(FleetFault::NoMemory);
        };
        Ok(Session { fleet })
    }

    /// Makes the devices of a script, as [`Fleet::of_script`] does. Its only error is want of memory.
    pub fn of_script(alloc: Global, script: &Script) -> Result<Session, AllocError>
        ensures fleet { IfOk result (λ session. ShowsFleet session (after_commands script.now.filters [])) }
        ensures long { IfOk result (λ session. length session.devices ≡ length script.now.names) }
        ensures count { IfOk result (λ session. session.commands ≡ 0) }
    {
        let fleet = Fleet::of_script(alloc, script)?;
        Ok(Session { fleet })
    }

    /// A session that continues with a fleet.
    pub fn of_fleet(fleet: Fleet) -> Session
        ensures { result ≡ fleet }
    {
        Session { fleet }
    }

    /// As [`Fleet::try_clone`]. Its only error is want of memory.
    pub fn try_clone(&self) -> Result<Session, AllocError>
        ensures { IfOk result (λ copy. copy ≡ self.now) }
    {
        let fleet = self.fleet.try_clone()?;
        Ok(Session { fleet })
    }

    /// The fleet, for the questions that have no precondition.
    pub fn fleet(&self) -> &Fleet
        ensures { result.now ≡ self.now }
    {
        &self.fleet
    }

    /// The device of that number, if there is one.
    pub fn device(&self, number: u16) -> Option<&Device>
        ensures { option_copied result ≡ slice_get self.now.devices number }
    {
        self.fleet.devices().get(usize::from(number))
    }

    /// Gives the fleet and ends the session.
    pub fn into_fleet(self) -> Fleet
        ensures { result ≡ self }
    {
        self.fleet
    }

    /// As [`Fleet::run`]. `NoDevice` comes exactly where [`Fleet::takes`] says no. `Full` comes exactly where it says yes and
    /// the fleet [is full](Fleet::is_full).
    pub fn run(&mut self, command: &Command) -> Result<Report, FleetFault>
        ensures ran { OnOk result (HasRun command.now self.old self.new) }
        ensures report { IfOk result (λ report. IsAnswerTo command.now self.old (answer_of report)) }
        ensures about { IfOk result (λ report. SpeaksOf self.old (answer_of report)) }
        ensures err { OnErr result (self.new ≡ self.old) }
        ensures refused { RefusesAsDue (IsDueTo command.now self.old) result }
        ensures long { length self.new.devices ≡ length self.old.devices }
    {
        if !self.fleet.takes(command) {
            return Err(FleetFault::NoDevice);
        }
        if self.fleet.commands() == u32::MAX {
            return Err(FleetFault::Full);
        }
        let Ok(report) = self.fleet.run(command) else {
            return Err(FleetFault::NoMemory);
        };
        Ok(report)
    }

    /// As [`Fleet::make`].
    pub fn make(
        &mut self,
        device: u16,
        picture: PicNo,
        content: &Record,
    ) -> Result<(Version, Place), FleetFault>
        ensures ran { OnOk result (HasRun (New device picture content.now) self.old self.new) }
        ensures answer { IfOk result (λ made. IsAnswerTo (New device picture content.now) self.old (Plain (Made made.0 made.1))) }
        ensures err { OnErr result (self.new ≡ self.old) }
        ensures refused { RefusesAsDue (IsDueTo (New device picture content.now) self.old) result }
        ensures long { length self.new.devices ≡ length self.old.devices }
    {
        self.check(device)?;
        let Ok(made) = self.fleet.make(device, picture, content) else {
            return Err(FleetFault::NoMemory);
        };
        Ok(made)
    }

    /// As [`Fleet::edit`].
    pub fn edit(
        &mut self,
        device: u16,
        picture: PicNo,
        content: &Record,
    ) -> Result<Option<(Version, Place)>, FleetFault>
        ensures ran { OnOk result (HasRun (Edit device picture content.now) self.old self.new) }
        ensures answer { IfOk result (λ made. IsAnswerTo (Edit device picture content.now) self.old (Plain (change_answer made))) }
        ensures err { OnErr result (self.new ≡ self.old) }
        ensures refused { RefusesAsDue (IsDueTo (Edit device picture content.now) self.old) result }
        ensures long { length self.new.devices ≡ length self.old.devices }
    {
        self.check(device)?;
        let Ok(made) = self.fleet.edit(device, picture, content) else {
            return Err(FleetFault::NoMemory);
        };
        Ok(made)
    }

    /// As [`Fleet::remove`].
    pub fn remove(
        &mut self,
        device: u16,
        picture: PicNo,
    ) -> Result<Option<(Version, Place)>, FleetFault>
        ensures ran { OnOk result (HasRun (Remove device picture) self.old self.new) }
        ensures answer { IfOk result (λ made. IsAnswerTo (Remove device picture) self.old (Plain (change_answer made))) }
        ensures err { OnErr result (self.new ≡ self.old) }
        ensures refused { RefusesAsDue (IsDueTo (Remove device picture) self.old) result }
        ensures long { length self.new.devices ≡ length self.old.devices }
    {
        self.check(device)?;
        let Ok(made) = self.fleet.remove(device, picture) else {
            return Err(FleetFault::NoMemory);
        };
        Ok(made)
    }

    /// As [`Fleet::pull`].
    pub fn pull(&mut self, target: u16, source: u16) -> Result<PullCounts, FleetFault>
        ensures ran { OnOk result (HasRun (Pull target source) self.old self.new) }
        ensures answer { IfOk result (λ counts. IsAnswerTo (Pull target source) self.old (Plain (Pulled counts))) }
        ensures err { OnErr result (self.new ≡ self.old) }
        ensures refused { RefusesAsDue (IsDueTo (Pull target source) self.old) result }
        ensures long { length self.new.devices ≡ length self.old.devices }
    {
        if !self.has_both(target, source) {
            return Err(FleetFault::NoDevice);
        }
        if self.fleet.commands() == u32::MAX {
            return Err(FleetFault::Full);
        }
        let Ok(counts) = self.fleet.pull(target, source) else {
            return Err(FleetFault::NoMemory);
        };
        Ok(counts)
    }

    /// As [`Fleet::narrow`].
    pub fn narrow(&mut self, device: u16, filter: &Filter) -> Result<Option<u64>, FleetFault>
        ensures ran { OnOk result (HasRun (Narrow device filter.now) self.old self.new) }
        ensures answer { IfOk result (λ count. IsAnswerTo (Narrow device filter.now) self.old (Plain (narrow_answer count))) }
        ensures err { OnErr result (self.new ≡ self.old) }
        ensures refused { RefusesAsDue (IsDueTo (Narrow device filter.now) self.old) result }
        ensures long { length self.new.devices ≡ length self.old.devices }
    {
        self.check(device)?;
        let Ok(count) = self.fleet.narrow(device, filter) else {
            return Err(FleetFault::NoMemory);
        };
        Ok(count)
    }

    /// As [`Fleet::refilter`].
    pub fn refilter(&mut self, device: u16, filter: &Filter) -> Result<(u64, u64), FleetFault>
        ensures ran { OnOk result (HasRun (Refilter device filter.now) self.old self.new) }
        ensures answer { IfOk result (λ sizes. IsAnswerTo (Refilter device filter.now) self.old (Plain (Refiltered sizes.0 sizes.1))) }
        ensures err { OnErr result (self.new ≡ self.old) }
        ensures refused { RefusesAsDue (IsDueTo (Refilter device filter.now) self.old) result }
        ensures long { length self.new.devices ≡ length self.old.devices }
    {
        self.check(device)?;
        let Ok(sizes) = self.fleet.refilter(device, filter) else {
            return Err(FleetFault::NoMemory);
        };
        Ok(sizes)
    }

    /// As [`Fleet::preview`]. A preview isn't counted, so `Full` never comes.
    pub fn preview(&self, target: u16, source: u16) -> Result<PullCounts, FleetFault>
        ensures answer { IfOk result (λ counts. IsAnswerTo (asked.Preview target source) self.now (Plain (Preview counts))) }
        ensures refused { RefusesAsDue (IsDueToQuestion (asked.Preview target source) self.now) result }
    {
        if !self.has_both(target, source) {
            return Err(FleetFault::NoDevice);
        }
        let Ok(counts) = self.fleet.preview(target, source) else {
            return Err(FleetFault::NoMemory);
        };
        Ok(counts)
    }

    /// As [`Fleet::add`]. `Full` comes exactly where there are 65,536 devices.
    pub fn add(&mut self, filter: &Filter) -> Result<u16, FleetFault>
        ensures joined { OnOk result (HasJoined filter.now self.old self.new) }
        ensures number { IfOk result (λ number. number ≡ length self.old.devices) }
        ensures err { OnErr result (self.new ≡ self.old) }
        ensures refused { RefusesAsDue (IsDueToDevices (length self.old.devices + 1)) result }
        ensures long { OnOk result (length self.new.devices ≡ length self.old.devices + 1) }
        ensures count { self.new.commands ≡ self.old.commands }
    {
        if self.fleet.devices().len() >= 65_536 {
            return Err(FleetFault::Full);
        }
        let Ok(number) = self.fleet.add(filter) else {
            return Err(FleetFault::NoMemory);
        };
        Ok(number)
    }

    /// As [`Fleet::run_number`]. `NoCommand` comes exactly where the script has no command of that number, or another number of
    /// devices. `Full` comes exactly where neither holds and no more commands may run.
    pub fn run_number(&mut self, script: &Script, number: u32) -> Result<Report, FleetFault>
        ensures ran { OnOk result (IfSome (command_of script.now number) (λ c. HasRun c self.old self.new)) }
        ensures report { IfOk result (λ report. IfSome (command_of script.now number) (λ c. IsAnswerTo c self.old (answer_of report))) }
        ensures about { IfOk result (λ report. IsAbout script.now (answer_of report)) }
        ensures err { OnErr result (self.new ≡ self.old) }
        ensures refused { RefusesAsDue (IsDueToNumber script.now number self.old) result }
        ensures long { length self.new.devices ≡ length self.old.devices }
    {
        if number == 0 || number as usize > script.commands() {
            return Err(FleetFault::NoCommand);
        }
        if self.fleet.devices().len() != script.devices() {
            return Err(FleetFault::NoCommand);
        }
        if self.fleet.commands() == u32::MAX {
            return Err(FleetFault::Full);
        }
        let Ok(report) = self.fleet.run_number(script, number) else {
            return Err(FleetFault::NoMemory);
        };
        Ok(report)
    }

    // Whether two devices are there and differ.
    fn has_both(&self, target: u16, source: u16) -> bool
        ensures { IsTrue result ↔ IsWithin (length self.now.devices) (Pull target source) }
    {
        let count = self.fleet.devices().len();
        usize::from(target) < count && usize::from(source) < count && source != target
    }

    // Checks that a device is there and that one more command may run.
    fn check(&self, device: u16) -> Result<(), FleetFault>
        ensures there { OnOk result (device < length self.now.devices) }
        ensures room { OnOk result (self.now.commands < 4_294_967_295) }
        ensures refused { RefusesAsDue (IsDueTo (asked.List device) self.now) result }
    {
        if usize::from(device) >= self.fleet.devices().len() {
            return Err(FleetFault::NoDevice);
        }
        if self.fleet.commands() == u32::MAX {
            return Err(FleetFault::Full);
        }
        Ok(())
    }
}
