// Scripts, as they are read.
ghost use Rattle.std.specs.Prelude.{◌≡◌, ◌<◌, ◌≤◌, ◌-◌, ◌++◌, ◌∷◌, [], length, take, slice_get, Some, None, IfSome, OnOk, OnErr};
ghost use Rattle.fleet_model.specs.Limits.{max_devices, max_commands};
ghost use Rattle.script_reader.specs.Fields.{place_of};

use crate::names::Names;
use crate::{Command, Tally, tally};
use photo_filter_rules::Filter;
use std::alloc::{AllocError, Global};
use std::marker::Model;

/// A script: the names of its devices, their filters and its commands. Contracts see these lists.
#[derive(Debug, Drop)]
pub struct Script {
    names: Names,
    filters: Vec<Filter>,
    commands: Vec<Command>,
}

impl Model for Script {
    ghost use Rattle.fleet_model.specs.Contents.{Contents, contents, IsScript};
    ghost use Rattle.script_reader.specs.Coding.{contents_code};

    ghost Value = { Contents };

    ghost coded = { contents_code };

    ghost view = { λ s. contents s.names s.filters.items s.commands.items };

    ghost invariant = { λ s. IsScript (contents s.names s.filters.items s.commands.items) };
}

impl Script {
    ghost use Rattle.photo_filter_rules.specs.Matching.{IsInRange};
    ghost use Rattle.fleet_model.specs.Contents.{contents, record_of, IsWithin, NamesDevices, AreInRange};
    ghost use Rattle.fleet_model.specs.Tallies.{tally_of};

    /// Makes a script without devices and commands.
    pub(crate) fn new(alloc: Global) -> Script
        ensures { result ≡ contents [] [] [] }
    {
        Script {
            names: Names::new(alloc),
            filters: Vec::new(alloc),
            commands: Vec::new(alloc),
        }
    }

    /// Counts the devices, at most 256.
    pub fn devices(&self) -> usize
        ensures count { result ≡ length self.now.names }
        ensures at_most { result ≤ max_devices }
        ensures filtered { length self.now.filters ≡ length self.now.names }
    {
        self.names.len()
    }

    /// Gives the name of the device at place `i` in order of declaration, from 0.
    pub fn name(&self, i: u16) -> &str
        requires { i < length self.now.names }
        ensures { slice_get self.now.names i ≡ Some result.now }
    {
        self.names.get(usize::from(i))
    }

    /// Gives the filter of the device at place `i` in order of declaration, from 0.
    pub fn filter(&self, i: u16) -> &Filter
        requires { i < length self.now.names }
        ensures { slice_get self.now.filters i ≡ Some result.now }
    {
        &self.filters[usize::from(i)]
    }

    /// Counts the commands, at most 100,000.
    pub fn commands(&self) -> usize
        ensures count { result ≡ length self.now.commands }
        ensures at_most { result ≤ max_commands }
        ensures known { NamesDevices self.now }
        ensures in_range { AreInRange self.now }
    {
        self.commands.len()
    }

    /// Gives the command of that number, from 1. It works on devices of the script.
    pub fn command(&self, number: u32) -> &Command
        requires first { 0 < number }
        requires within { number ≤ length self.now.commands }
        ensures command { slice_get self.now.commands (number - 1) ≡ Some result.now }
        ensures known { IsWithin (length self.now.names) result.now }
    {
        &self.commands[number as usize - 1]
    }

    /// Counts the commands of each kind. It takes no memory.
    pub fn tally(&self) -> Tally
        ensures { result ≡ tally_of self.now }
    {
        tally::tally_of(self.commands.as_slice())
    }

    /// Gives the place of the device with that name.
    pub(crate) fn place(&self, name: &str) -> Option<u16>
        ensures place { result ≡ place_of self.now.names name.now }
        ensures within { IfSome result (λ i. i < length self.now.names) }
    {
        let place = self.names.place(name)?;
        Some(place as u16)
    }

    /// Appends a device.
    pub(crate) fn declare(&mut self, name: &str, filter: Filter) -> Result<(), AllocError>
        requires room { length self.old.names < max_devices }
        requires fresh { place_of self.old.names name.now ≡ None }
        ensures ok { OnOk result
            (self.new ≡ contents (self.old.names ++ name.now ∷ []) (self.old.filters ++ filter ∷ []) self.old.commands) }
        ensures err { OnErr result (self.new ≡ self.old) }
    {
        self.filters.push(filter)?;
        if let Err(refused) = self.names.add(name) {
            self.filters.pop();
            return Err(refused);
        }
        Ok(())
    }

    /// Appends a command.
    pub(crate) fn push(&mut self, command: Command) -> Result<(), AllocError>
        requires room { length self.old.commands < max_commands }
        requires known { IsWithin (length self.old.names) command }
        requires in_range { IfSome (record_of command) IsInRange }
        ensures ok { OnOk result (self.new ≡ contents self.old.names self.old.filters (self.old.commands ++ command ∷ [])) }
        ensures err { OnErr result (self.new ≡ self.old) }
    {
        self.commands.push(command)?;
        Ok(())
    }

    /// Keeps the first `count` commands.
    pub(crate) fn keep_commands(&mut self, count: usize)
        ensures { self.new ≡ contents self.old.names self.old.filters (take count self.old.commands) }
    {
        self.commands.truncate(count);
    }

    /// Keeps the first `count` devices of a script without commands. It leaves a script with commands as it is.
    pub(crate) fn keep_devices(&mut self, count: usize)
        ensures none { self.old.commands ≡ [] → self.new ≡ contents (take count self.old.names) (take count self.old.filters) [] }
        ensures some { 0 < length self.old.commands → self.new ≡ self.old }
    {
        if !self.commands.is_empty() {
            return;
        }
        self.names.keep(count);
        self.filters.truncate(count);
    }
}
