// The fleet: how contracts see it, and its calls.
use crate::answer::{made_in, narrowed_in, pulled_in, refiltered_in};
use crate::asking::preview_between;
use crate::copying::{devices_copied, log_copied};
use crate::opening::{devices_of_script, opening_devices};
use crate::ranges::command_in_range;
use crate::step::run_and_keep;
use fleet_steps::opening_device;
use photo_device::{Device, Held, Place};
use photo_filter_rules::Filter;
use photo_pull::PullCounts;
use photo_record::{PicNo, Record};
use photo_script::{Command, Report, Script, devices_of};
use photo_version::Version;
use std::alloc::{AllocError, Global};
use std::marker::Model;

/// Devices that run one command after another, with the log of the versions that they made.
///
/// Contracts see its parts, and by [`ShowsFleet`] the model fleet of a run of those commands. Whatever the commands were, each
/// device is sound and no current version is lost: [`crate::laws::each_fleet_is_sound`].
#[derive(Debug, Drop)]
pub struct Fleet {
    devices: Vec<Device>,
    log: Vec<Held>,
    commands: u32,
    alloc: Global,
}

impl Model for Fleet {
    ghost use Rattle.live_fleet.specs.Fleets.{KeptFleet, CameAbout};
    ghost use Rattle.live_fleet.specs.Coding.{fleet_code};

    ghost Value = { KeptFleet };

    ghost coded = { fleet_code };

    ghost view = { λ f. record { devices = f.devices.items; log = f.log.items; commands = f.commands } };

    ghost invariant = { λ f. CameAbout (record { devices = f.devices.items; log = f.log.items; commands = f.commands }) };
}

impl Fleet {
    ghost use Rattle.std.specs.Prelude.{◌≡◌, ◌≢◌, ◌+◌, ◌<◌, ◌≤◌, ◌↔◌, [], length, IsTrue, IfOk, IfSome, OnOk, OnErr};
    ghost use Rattle.fleet_model.specs.Contents.{IsWithin, command_of};
    ghost use Rattle.fleet_model.specs.Answers.{Made, Pulled, Preview, Refiltered};
    ghost use Rattle.photo_script.specs.Reports.{Plain, IsAbout, answer_of};
    ghost use Rattle.fleet_model.specs.declared.command.Command.TheVariants.{New, Edit, Remove, Pull, Narrow, Refilter};
    ghost use Rattle.fleet_model.specs.declared.command.Command.TheVariants as asked;
    ghost use Rattle.live_fleet.specs.Answers.{change_answer, narrow_answer};
    ghost use Rattle.live_fleet.specs.Fleets.{CameAbout, HasJoined, HasRun, IsAnswerTo, ShowsFleet, SpeaksOf, after_commands};

    /// Makes a device for each filter, in their order; none has made or holds anything. There may be 65,536. Its only error is
    /// want of memory.
    pub fn new(alloc: Global, filters: &[Filter]) -> Result<Fleet, AllocError>
        requires few { length filters.now ≤ 65_536 }
        ensures fleet { IfOk result (λ fleet. ShowsFleet fleet (after_commands filters.now [])) }
        ensures long { IfOk result (λ fleet. length fleet.devices ≡ length filters.now) }
        ensures count { IfOk result (λ fleet. fleet.commands ≡ 0) }
    {
        let devices = opening_devices(alloc, filters)?;
        Ok(Fleet {
            devices,
            log: Vec::new(alloc),
            commands: 0,
            alloc,
        })
    }

    /// Makes the devices of a script; none has made or holds anything. [`Fleet::run_number`] runs the script's commands. Its
    /// only error is want of memory.
    pub fn of_script(alloc: Global, script: &Script) -> Result<Fleet, AllocError>
        ensures fleet { IfOk result (λ fleet. ShowsFleet fleet (after_commands script.now.filters [])) }
        ensures long { IfOk result (λ fleet. length fleet.devices ≡ length script.now.names) }
        ensures count { IfOk result (λ fleet. fleet.commands ≡ 0) }
    {
        let devices = devices_of_script(alloc, script)?;
        Ok(Fleet {
            devices,
            log: Vec::new(alloc),
            commands: 0,
            alloc,
        })
    }

    /// Copies the fleet; what happens to the copy leaves this one unchanged. The copy shares the held versions and needs memory
    /// for its lists and its knowledge. Its only error is want of memory.
    pub fn try_clone(&self) -> Result<Fleet, AllocError>
        ensures { IfOk result (λ copy. copy ≡ self.now) }
    {
        let devices = devices_copied(self.alloc, self.devices.as_slice())?;
        let log = log_copied(self.alloc, self.log.as_slice())?;
        Ok(Fleet {
            devices,
            log,
            commands: self.commands,
            alloc: self.alloc,
        })
    }

    /// Adds a device with that filter at the end; it has made and holds nothing. Gives its number, which is how many devices
    /// there were before. There may be 65,536. This doesn't count as a command. Its only error is want of memory, after which
    /// the fleet is as it was.
    pub fn add(&mut self, filter: &Filter) -> Result<u16, AllocError>
        requires few { length self.old.devices < 65_536 }
        ensures joined { OnOk result (HasJoined filter.now self.old self.new) }
        ensures number { IfOk result (λ number. number ≡ length self.old.devices) }
        ensures err { OnErr result (self.new ≡ self.old) }
        ensures long { OnOk result (length self.new.devices ≡ length self.old.devices + 1) }
        ensures kept { length self.old.devices ≤ length self.new.devices }
        ensures count { self.new.commands ≡ self.old.commands }
    {
        let number = self.devices.len() as u16;
        let device = opening_device(self.alloc, number, filter)?;
        self.devices.push(device)?;
        Ok(number)
    }

    /// Runs one command on the one or two devices that it names, appends the version that it makes to the log, and gives the
    /// report. Its only error is want of memory, after which the fleet is as it was.
    ///
    /// [`Fleet::takes`] tells whether the command's devices are there, and [`Fleet::is_full`] whether one more command may run.
    /// `new` may name a picture that has been made: it makes a further version of it. The report names devices of the fleet
    /// alone, so each script with as many devices has a text for it (`photo_script::report_text`).
    pub fn run(&mut self, command: &Command) -> Result<Report, AllocError>
        requires within { IsWithin (length self.old.devices) command.now }
        requires room { self.old.commands < 4_294_967_295 }
        ensures ran { OnOk result (HasRun command.now self.old self.new) }
        ensures report { IfOk result (λ report. IsAnswerTo command.now self.old (answer_of report)) }
        ensures about { IfOk result (λ report. SpeaksOf self.old (answer_of report)) }
        ensures err { OnErr result (self.new ≡ self.old) }
        ensures long { length self.new.devices ≡ length self.old.devices }
        ensures count { self.new.commands ≤ self.old.commands + 1 }
        ensures came { CameAbout self.old }
    {
        command_in_range(command);
        let devices = self.devices.as_mut_slice();
        let report = run_and_keep(self.alloc, command, devices, &mut self.log)?;
        self.commands += 1;
        Ok(report)
    }

    // Runs one command that it owns, and frees it.
    fn give(&mut self, command: Command) -> Result<Report, AllocError>
        requires within { IsWithin (length self.old.devices) command }
        requires room { self.old.commands < 4_294_967_295 }
        ensures ran { OnOk result (HasRun command self.old self.new) }
        ensures report { IfOk result (λ report. IsAnswerTo command self.old (answer_of report)) }
        ensures err { OnErr result (self.new ≡ self.old) }
        ensures long { length self.new.devices ≡ length self.old.devices }
        ensures count { self.new.commands ≤ self.old.commands + 1 }
        ensures came { CameAbout self.old }
    {
        self.run(&command)
    }

    /// Runs the command of that number of a script, from 1, as [`Fleet::run`] does. The script has as many devices as the
    /// fleet, so it has a text for the report. Its only error is want of memory, after which the fleet is as it was.
    pub fn run_number(&mut self, script: &Script, number: u32) -> Result<Report, AllocError>
        requires first { 0 < number }
        requires last { number ≤ length script.now.commands }
        requires devices { length self.old.devices ≡ length script.now.names }
        requires room { self.old.commands < 4_294_967_295 }
        ensures ran { OnOk result (IfSome (command_of script.now number) (λ c. HasRun c self.old self.new)) }
        ensures report { IfOk result (λ report. IfSome (command_of script.now number) (λ c. IsAnswerTo c self.old (answer_of report))) }
        ensures about { IfOk result (λ report. IsAbout script.now (answer_of report)) }
        ensures err { OnErr result (self.new ≡ self.old) }
        ensures long { length self.new.devices ≡ length self.old.devices }
        ensures count { self.new.commands ≤ self.old.commands + 1 }
    {
        self.run(script.command(number))
    }

    /// Makes a version of a picture on a device, whether or not the picture is new, as `new` does. Gives the version and its
    /// place. Its only error is want of memory, after which the fleet is as it was.
    pub fn make(
        &mut self,
        device: u16,
        picture: PicNo,
        content: &Record,
    ) -> Result<(Version, Place), AllocError>
        requires within { device < length self.old.devices }
        requires room { self.old.commands < 4_294_967_295 }
        ensures ran { OnOk result (HasRun (New device picture content.now) self.old self.new) }
        ensures answer { IfOk result (λ made. IsAnswerTo (New device picture content.now) self.old (Plain (Made made.0 made.1))) }
        ensures err { OnErr result (self.new ≡ self.old) }
        ensures long { length self.new.devices ≡ length self.old.devices }
        ensures count { self.new.commands ≤ self.old.commands + 1 }
    {
        let record = content.try_clone()?;
        let report = self.give(Command::New {
            device,
            picture,
            record,
        })?;
        Ok(made_in(report).unwrap())
    }

    /// Makes a version of a picture on a device that holds one. Gives the version and its place, or `None` where the device
    /// holds none. Its only error is want of memory, after which the fleet is as it was.
    pub fn edit(
        &mut self,
        device: u16,
        picture: PicNo,
        content: &Record,
    ) -> Result<Option<(Version, Place)>, AllocError>
        requires within { device < length self.old.devices }
        requires room { self.old.commands < 4_294_967_295 }
        ensures ran { OnOk result (HasRun (Edit device picture content.now) self.old self.new) }
        ensures answer { IfOk result (λ made. IsAnswerTo (Edit device picture content.now) self.old (Plain (change_answer made))) }
        ensures err { OnErr result (self.new ≡ self.old) }
        ensures long { length self.new.devices ≡ length self.old.devices }
        ensures count { self.new.commands ≤ self.old.commands + 1 }
    {
        let record = content.try_clone()?;
        let report = self.give(Command::Edit {
            device,
            picture,
            record,
        })?;
        Ok(made_in(report))
    }

    /// Makes a version that removes a picture, on a device that holds one. Gives the version and its place, or `None` where the
    /// device holds none. Its only error is want of memory, after which the fleet is as it was.
    pub fn remove(
        &mut self,
        device: u16,
        picture: PicNo,
    ) -> Result<Option<(Version, Place)>, AllocError>
        requires within { device < length self.old.devices }
        requires room { self.old.commands < 4_294_967_295 }
        ensures ran { OnOk result (HasRun (Remove device picture) self.old self.new) }
        ensures answer { IfOk result (λ made. IsAnswerTo (Remove device picture) self.old (Plain (change_answer made))) }
        ensures err { OnErr result (self.new ≡ self.old) }
        ensures long { length self.new.devices ≡ length self.old.devices }
        ensures count { self.new.commands ≤ self.old.commands + 1 }
    {
        let report = self.give(Command::Remove { device, picture })?;
        Ok(made_in(report))
    }

    /// The target pulls from the source, which is another device. Gives what the pull moved. Its only error is want of memory,
    /// after which the fleet is as it was.
    pub fn pull(&mut self, target: u16, source: u16) -> Result<PullCounts, AllocError>
        requires target { target < length self.old.devices }
        requires source { source < length self.old.devices }
        requires differ { source ≢ target }
        requires room { self.old.commands < 4_294_967_295 }
        ensures ran { OnOk result (HasRun (Pull target source) self.old self.new) }
        ensures answer { IfOk result (λ counts. IsAnswerTo (Pull target source) self.old (Plain (Pulled counts))) }
        ensures err { OnErr result (self.new ≡ self.old) }
        ensures long { length self.new.devices ≡ length self.old.devices }
        ensures count { self.new.commands ≤ self.old.commands + 1 }
    {
        let report = self.give(Command::Pull { target, source })?;
        Ok(pulled_in(report).unwrap())
    }

    /// Gives a device a filter that its present one covers; versions that the new one doesn't match go from the store to the
    /// out. Gives how many went, or `None` where the present filter doesn't cover the new one. Its only error is want of
    /// memory, after which the fleet is as it was.
    pub fn narrow(&mut self, device: u16, filter: &Filter) -> Result<Option<u64>, AllocError>
        requires within { device < length self.old.devices }
        requires room { self.old.commands < 4_294_967_295 }
        ensures ran { OnOk result (HasRun (Narrow device filter.now) self.old self.new) }
        ensures answer { IfOk result (λ count. IsAnswerTo (Narrow device filter.now) self.old (Plain (narrow_answer count))) }
        ensures err { OnErr result (self.new ≡ self.old) }
        ensures long { length self.new.devices ≡ length self.old.devices }
        ensures count { self.new.commands ≤ self.old.commands + 1 }
    {
        let filter = filter.try_clone()?;
        let report = self.give(Command::Narrow { device, filter })?;
        Ok(narrowed_in(report))
    }

    /// Gives a device any other filter and begins its next epoch. The device sorts what it holds anew into store and out; of
    /// what it knew it keeps the versions held and their histories. Gives how many versions the store and the out have then.
    /// Its only error is want of memory, after which the fleet is as it was.
    pub fn refilter(&mut self, device: u16, filter: &Filter) -> Result<(u64, u64), AllocError>
        requires within { device < length self.old.devices }
        requires room { self.old.commands < 4_294_967_295 }
        ensures ran { OnOk result (HasRun (Refilter device filter.now) self.old self.new) }
        ensures answer { IfOk result (λ sizes. IsAnswerTo (Refilter device filter.now) self.old (Plain (Refiltered sizes.0 sizes.1))) }
        ensures err { OnErr result (self.new ≡ self.old) }
        ensures long { length self.new.devices ≡ length self.old.devices }
        ensures count { self.new.commands ≤ self.old.commands + 1 }
    {
        let filter = filter.try_clone()?;
        let report = self.give(Command::Refilter { device, filter })?;
        Ok(refiltered_in(report).unwrap())
    }

    /// Counts what a pull by the target from the source, which is another device, would move. Nothing changes, and this doesn't
    /// count as a command. Its only error is want of memory.
    pub fn preview(&self, target: u16, source: u16) -> Result<PullCounts, AllocError>
        requires target { target < length self.now.devices }
        requires source { source < length self.now.devices }
        requires differ { source ≢ target }
        ensures { IfOk result (λ counts. IsAnswerTo (asked.Preview target source) self.now (Plain (Preview counts))) }
    {
        let devices = self.devices.as_slice();
        let counts = preview_between(
            self.alloc,
            devices,
            usize::from(target),
            usize::from(source),
        )?;
        Ok(counts)
    }

    /// Whether the devices of a command are there, and differ if it has two.
    pub fn takes(&self, command: &Command) -> bool
        ensures { IsTrue result ↔ IsWithin (length self.now.devices) command.now }
    {
        let (first, second) = devices_of(command);
        let count = self.devices.len();
        let within = usize::from(first) < count;
        match second {
            None => within,
            Some(second) => within && usize::from(second) < count && second != first,
        }
    }

    /// Whether 4,294,967,295 commands have run, after which none may run.
    pub fn is_full(&self) -> bool
        ensures { IsTrue result ↔ (self.now.commands ≡ 4_294_967_295) }
    {
        self.commands == u32::MAX
    }

    /// The devices, in order of declaration.
    pub fn devices(&self) -> &[Device]
        ensures value { result.now ≡ self.now.devices }
        ensures came { CameAbout self.now }
    {
        self.devices.as_slice()
    }

    /// The versions that were made, oldest first, each as its maker held it.
    pub fn log(&self) -> &[Held]
        ensures { result.now ≡ self.now.log }
    {
        self.log.as_slice()
    }

    /// How many commands have run, among them those that ask a question.
    pub fn commands(&self) -> u32
        ensures { result ≡ self.now.commands }
    {
        self.commands
    }
}
