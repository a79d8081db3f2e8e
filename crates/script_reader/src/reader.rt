// Reads a script line by line.
ghost use Rattle.std.specs.Prelude.{◌≡◌, ◌≢◌, ℕ, List, [], ◌∷◌, ◌<◌, ◌≤◌, length, map, codes, None, Ok, Err, IfOk, IfErr, IfSome, OnOk, OnErr, true};
ghost use Rattle.script_reader.specs.Lines.{fields_of, lines_of, pieces_of, third_field_on};
ghost use Rattle.script_reader.specs.Limits.{max_text_bytes, max_line_bytes};
ghost use Rattle.std.specs.Str.Lines.{strip_carriage_return};
ghost use Rattle.photo_record.specs.Reading.{rating_of_text, day_of_text};
ghost use Rattle.photo_filter_rules.specs.Matching.{IsInRange};
ghost use Rattle.script_reader.specs.Steps.{Gives};
ghost use Rattle.script_reader.specs.Saying.{device_said, new_picture_said, record_said, picture_said, author_said, version_said};
ghost use Rattle.script_reader.specs.Saying.{device_line_said, new_line_said, edit_line_said, remove_line_said, pull_line_said};
ghost use Rattle.script_reader.specs.Saying.{narrow_line_said, refilter_line_said, preview_line_said, list_line_said, conflicts_line_said};
ghost use Rattle.script_reader.specs.Saying.{knowledge_line_said, knows_line_said, two_devices_said, device_and_filter_said};
ghost use Rattle.script_reader.specs.Saying.{declaration_said, creation_said, edition_said};
ghost use Rattle.script_reader.specs.Saying.{question_line_said, command_line_said, command_said, fields_said, said};
ghost use Rattle.script_reader.specs.Reading.{script_of, script_of_lines, MayWantMemory};
ghost use Rattle.script_reader.specs.declared.fault.ScriptFault.TheVariants.{NoMemory, Read};
ghost use Rattle.script_reader.specs.declared.refusal.Refusal.TheVariants.{Memory};

use crate::field::{
    cut_at_colon, cut_at_dot, epoch_of, filter_of, is_name, picture_of, put_fields, third_field_on,
    version_number_of,
};
use crate::limits::{MAX_COMMANDS, MAX_DEVICES, MAX_LINE_BYTES, MAX_TEXT_BYTES};
use crate::refusal::Refusal;
use crate::word_sets::WordSets;
use crate::{Command, LineFault, Script, ScriptFault};
use photo_filter_rules::Filter;
use photo_record::{Day, PicNo, Rating, Record, WordFault};
use photo_version::{Author, Version};
use std::alloc::Global;
use std::collections::BTreeSet;
use std::str;

/// Reads a script.
///
/// The error is the first fault of the text: `TooLarge`, then `NotUtf8`, then the fault of the first line that has one.
/// `NoMemory` comes where memory is refused before a fault is found. `Read` never comes.
pub fn read_script(alloc: Global, bytes: &[u8]) -> Result<Script, ScriptFault>
    ensures read { IfOk result (λ script. script_of bytes.now ≡ Ok script) }
    ensures refused { IfErr result (λ fault. fault ≢ NoMemory → script_of bytes.now ≡ Err fault) }
    ensures no_memory { result ≡ Err NoMemory → MayWantMemory bytes.now }
    ensures no_read { result ≢ Err Read }
{
    if bytes.len() > MAX_TEXT_BYTES {
        return Err(ScriptFault::TooLarge);
    }
    let Ok(text) = str::from_utf8(bytes) else {
        return Err(ScriptFault::NotUtf8);
    };
    read_lines(alloc, text)
}

// Reads the lines of a script. An empty piece after the last LF adds nothing, so it may count as a line.
fn read_lines(alloc: Global, text: &str) -> Result<Script, ScriptFault>
    requires { length text.now ≤ max_text_bytes }
    ensures read { IfOk result (λ script. script_of_lines (lines_of text.now) ≡ Ok script) }
    ensures refused { IfErr result (λ fault. fault ≢ NoMemory → script_of_lines (lines_of text.now) ≡ Err fault) }
    ensures no_memory { result ≡ Err NoMemory → MayWantMemory text.now }
    ensures no_read { result ≢ Err Read }
{
    let mut reader = Reader::new(alloc);
    let mut fields = Vec::new(alloc);
    match reader.read_pieces(text, &mut fields) {
        Ok(_) => Ok(reader.script),
        Err(fault) => Err(fault),
    }
}

/// Gives a line without the CR that it may end in.
pub(crate) fn without_return(line: &str) -> &str
    ensures { result.now ≡ strip_carriage_return line.now }
{
    line.strip_suffix('\r').unwrap_or(line)
}

/// The script of the lines so far, the pictures that they make, and their sets of words.
#[derive(Drop)]
pub(crate) struct Reader {
    pub(crate) alloc: Global,
    pub(crate) script: Script,
    pub(crate) pictures: BTreeSet<u32>,
    words: WordSets,
}

impl Reader {
    ghost use Rattle.std.specs.BTreeSet.{Updates};
    ghost use Rattle.std.specs.Ordering.{nat_cmp};
    ghost use Rattle.fleet_model.specs.Contents.{IsWithin, record_of};
    ghost use Rattle.fleet_model.specs.Limits.{max_commands};
    ghost use Rattle.script_reader.specs.Steps.{Leads, HasMade, HasTaken, IsAsItWas, IsFirst, Reads, Refuses, TakesLast, first_said, seen, texts};
    ghost use Rattle.script_reader.specs.declared.refusal.Refusal.TheVariants.{Memory};

    /// Makes a reader that has read no line. It takes no memory.
    pub(crate) fn new(alloc: Global) -> Reader
        ensures { IsFirst result }
    {
        Reader {
            alloc,
            script: Script::new(alloc),
            pictures: BTreeSet::new(alloc),
            words: WordSets::new(alloc),
        }
    }

    /// Reads all lines of a text, and counts them. `fields` is the list that each line's fields are put into.
    pub(crate) fn read_pieces<'a>(
        &mut self,
        text: &'a str,
        fields: &mut Vec<&'a str>,
    ) -> Result<u32, ScriptFault>
        requires small { length text.now ≤ max_text_bytes }
        requires first { IsFirst self.old }
        ensures read { OnOk result (script_of_lines (lines_of text.now) ≡ Ok self.new.script) }
        ensures count { IfOk result (λ count. count ≡ length (pieces_of text.now)) }
        ensures taken { OnOk result (HasTaken (map strip_carriage_return (pieces_of text.now)) self.new) }
        ensures refused { IfErr result (λ fault. fault ≢ NoMemory → script_of_lines (lines_of text.now) ≡ Err fault) }
        ensures no_memory { result ≡ Err NoMemory → MayWantMemory text.now }
        ensures no_read { result ≢ Err Read }
    {
        let mut number = 0;
        for piece in text.split('\n') {
            number += 1;
            if let Err(refusal) = self.read_line(without_return(piece), fields) {
                return Err(refusal.in_line(number));
            }
        }
        Ok(number)
    }

    /// Reads the next line, and leaves its fields in the list. After an error the script and the pictures are as they were.
    #[tactic(auto, unfolding(crate::specs::Saying::said))]
    pub(crate) fn read_line<'a>(
        &mut self,
        line: &'a str,
        fields: &mut Vec<&'a str>,
    ) -> Result<(), Refusal>
        ensures reads { Reads self.old (fields_of line.now) (third_field_on line.now) (said (seen self.old) line.now) result self.new }
        ensures memory { result ≡ Err Memory → length line.now ≤ max_line_bytes }
        ensures has_field { result ≡ Err Memory → fields_of line.now ≢ [] }
        ensures fields { OnOk result (map (λ f. f.now) fields.new.items ≡ fields_of line.now) }
    {
        if line.len() > MAX_LINE_BYTES {
            return Err(Refusal::Fault(LineFault::LineTooLong));
        }
        put_fields(fields, line)?;
        self.read_fields(line, fields.as_slice())
    }

    #[tactic(auto, unfolding(crate::specs::Saying::fields_said))]
    fn read_fields(&mut self, line: &str, fields: &[&str]) -> Result<(), Refusal>
        ensures reads { Reads self.old (texts fields.now) (third_field_on line.now)
            (fields_said (seen self.old) (texts fields.now) (third_field_on line.now)) result self.new }
        ensures has_field { result ≡ Err Memory → texts fields.now ≢ [] }
    {
        let Some((word, arguments)) = fields.split_first() else {
            return Ok(());
        };
        if word.starts_with('#') {
            return Ok(());
        }
        if *word == "device" {
            return self.read_device(arguments, third_field_on(line));
        }
        self.read_command(line, word, arguments)
    }

    #[tactic(auto, unfolding(crate::specs::Saying::command_line_said))]
    fn read_command(&mut self, line: &str, word: &str, arguments: &[&str]) -> Result<(), Refusal>
        ensures { Reads self.old (word.now ∷ texts arguments.now) (third_field_on line.now)
            (command_line_said (seen self.old) word.now (texts arguments.now) (third_field_on line.now)) result self.new }
    {
        match word {
            "new" => self.read_new(arguments),
            "edit" => self.read_edit(arguments),
            "remove" => self.read_remove(arguments),
            "pull" => self.read_pull(arguments),
            "narrow" => self.read_narrow(arguments, third_field_on(line)),
            "refilter" => self.read_refilter(arguments, third_field_on(line)),
            _ => self.read_question(word, arguments),
        }
    }

    #[tactic(auto, unfolding(crate::specs::Saying::question_line_said))]
    fn read_question(&mut self, word: &str, arguments: &[&str]) -> Result<(), Refusal>
        ensures { (filter : List ℕ) → Reads self.old (word.now ∷ texts arguments.now) filter
            (question_line_said (seen self.old) word.now (texts arguments.now)) result self.new }
    {
        match word {
            "preview" => self.read_preview(arguments),
            "list" => self.read_list(arguments),
            "conflicts" => self.read_conflicts(arguments),
            "knowledge" => self.read_knowledge(arguments),
            "knows" => self.read_knows(arguments),
            _ => Err(Refusal::Fault(LineFault::UnknownCommand)),
        }
    }

    // `device NAME FILTER`
    #[tactic(auto, unfolding(crate::specs::Saying::device_line_said))]
    fn read_device(&mut self, arguments: &[&str], filter: &str) -> Result<(), Refusal>
        ensures { Reads self.old (codes "device" ∷ texts arguments.now) filter.now
            (device_line_said (seen self.old) (texts arguments.now) filter.now) result self.new }
    {
        if self.script.commands() > 0 {
            return Err(Refusal::Fault(LineFault::LateDevice));
        }
        let Some((name, others)) = arguments.split_first() else {
            return Err(Refusal::Fault(LineFault::WrongFields));
        };
        if others.is_empty() {
            return Err(Refusal::Fault(LineFault::WrongFields));
        }
        self.declare(name, filter)
    }

    #[tactic(auto, unfolding(crate::specs::Saying::declaration_said))]
    fn declare(&mut self, name: &str, filter: &str) -> Result<(), Refusal>
        ensures { (more : List (List ℕ)) → Reads self.old (codes "device" ∷ name.now ∷ more) filter.now
            (declaration_said (seen self.old) name.now filter.now) result self.new }
    {
        if self.script.devices() >= MAX_DEVICES {
            return Err(Refusal::Fault(LineFault::TooMany));
        }
        if !is_name(name) {
            return Err(Refusal::Fault(LineFault::BadName));
        }
        if self.script.place(name).is_some() {
            return Err(Refusal::Fault(LineFault::RepeatedDevice));
        }
        let filter = filter_of(self.alloc, filter)?;
        self.script.declare(name, filter)?;
        Ok(())
    }

    // `new DEV PIC RATING DATE WORDS`
    #[tactic(auto, unfolding(crate::specs::Saying::new_line_said))]
    fn read_new(&mut self, arguments: &[&str]) -> Result<(), Refusal>
        ensures { Reads self.old (codes "new" ∷ texts arguments.now) []
            (new_line_said (seen self.old) (texts arguments.now)) result self.new }
    {
        let [name, picture, rating, date, words] = arguments else {
            return Err(Refusal::Fault(LineFault::WrongFields));
        };
        self.create(name, picture, rating, date, words)
    }

    #[tactic(auto, unfolding(crate::specs::Saying::command_said, crate::specs::Saying::creation_said))]
    fn create(
        &mut self,
        name: &str,
        picture: &str,
        rating: &str,
        date: &str,
        words: &str,
    ) -> Result<(), Refusal>
        ensures { Reads self.old (codes "new" ∷ name.now ∷ picture.now ∷ rating.now ∷ date.now ∷ words.now ∷ []) []
            (command_said (seen self.old)
            (creation_said (seen self.old) name.now picture.now (record_said rating.now date.now words.now)))
            result self.new }
    {
        let device = self.first_device(name)?;
        let picture = self.new_picture(picture)?;
        match self.make(device, picture, rating, date, words) {
            Ok(()) => Ok(()),
            Err(refusal) => {
                self.pictures.remove(&picture.value());
                Err(refusal)
            }
        }
    }

    // Appends the command that makes a picture.
    fn make(
        &mut self,
        device: u16,
        picture: PicNo,
        rating: &str,
        date: &str,
        words: &str,
    ) -> Result<(), Refusal>
        requires room { length self.old.script.commands < max_commands }
        requires known { device < length self.old.script.names }
        ensures made { OnOk result
            (HasMade self.old.script device picture (record_said rating.now date.now words.now) self.new.script) }
        ensures refused { IfErr result (λ e. Refuses e (record_said rating.now date.now words.now)) }
        ensures kept { OnErr result (self.new.script ≡ self.old.script) }
        ensures pictures { self.new.pictures ≡ self.old.pictures }
    {
        let record = record_of(&mut self.words, rating, date, words)?;
        self.script.push(Command::New {
            device,
            picture,
            record,
        })?;
        Ok(())
    }

    // `edit DEV PIC RATING DATE WORDS`
    #[tactic(auto, unfolding(crate::specs::Saying::edit_line_said))]
    fn read_edit(&mut self, arguments: &[&str]) -> Result<(), Refusal>
        ensures { Reads self.old (codes "edit" ∷ texts arguments.now) []
            (edit_line_said (seen self.old) (texts arguments.now)) result self.new }
    {
        let [name, picture, rating, date, words] = arguments else {
            return Err(Refusal::Fault(LineFault::WrongFields));
        };
        self.edit(name, picture, rating, date, words)
    }

    #[tactic(auto, unfolding(crate::specs::Saying::command_said, crate::specs::Saying::edition_said))]
    fn edit(
        &mut self,
        name: &str,
        picture: &str,
        rating: &str,
        date: &str,
        words: &str,
    ) -> Result<(), Refusal>
        ensures { Reads self.old (codes "edit" ∷ name.now ∷ picture.now ∷ rating.now ∷ date.now ∷ words.now ∷ []) []
            (command_said (seen self.old)
            (edition_said (seen self.old) name.now picture.now (record_said rating.now date.now words.now)))
            result self.new }
    {
        let device = self.first_device(name)?;
        let picture = any_picture(picture)?;
        let record = record_of(&mut self.words, rating, date, words)?;
        self.take(Command::Edit {
            device,
            picture,
            record,
        })
    }

    // `remove DEV PIC`
    #[tactic(auto, unfolding(crate::specs::Saying::remove_line_said, crate::specs::Saying::command_said, crate::specs::Saying::removal_said))]
    fn read_remove(&mut self, arguments: &[&str]) -> Result<(), Refusal>
        ensures { Reads self.old (codes "remove" ∷ texts arguments.now) []
            (remove_line_said (seen self.old) (texts arguments.now)) result self.new }
    {
        let [name, picture] = arguments else {
            return Err(Refusal::Fault(LineFault::WrongFields));
        };
        let device = self.first_device(name)?;
        let picture = any_picture(picture)?;
        self.take(Command::Remove { device, picture })
    }

    // `pull TARGET SOURCE`
    #[tactic(auto, unfolding(crate::specs::Saying::pull_line_said))]
    fn read_pull(&mut self, arguments: &[&str]) -> Result<(), Refusal>
        ensures { Reads self.old (codes "pull" ∷ texts arguments.now) []
            (pull_line_said (seen self.old) (texts arguments.now)) result self.new }
    {
        let (target, source) = self.two_devices(arguments)?;
        self.take(Command::Pull { target, source })
    }

    // `preview TARGET SOURCE`
    #[tactic(auto, unfolding(crate::specs::Saying::preview_line_said))]
    fn read_preview(&mut self, arguments: &[&str]) -> Result<(), Refusal>
        ensures { Reads self.old (codes "preview" ∷ texts arguments.now) []
            (preview_line_said (seen self.old) (texts arguments.now)) result self.new }
    {
        let (target, source) = self.two_devices(arguments)?;
        self.take(Command::Preview { target, source })
    }

    // `narrow DEV FILTER`
    #[tactic(auto, unfolding(crate::specs::Saying::narrow_line_said))]
    fn read_narrow(&mut self, arguments: &[&str], filter: &str) -> Result<(), Refusal>
        ensures { Reads self.old (codes "narrow" ∷ texts arguments.now) filter.now
            (narrow_line_said (seen self.old) (texts arguments.now) filter.now) result self.new }
    {
        let (device, filter) = self.device_and_filter(arguments, filter)?;
        self.take(Command::Narrow { device, filter })
    }

    // `refilter DEV FILTER`
    #[tactic(auto, unfolding(crate::specs::Saying::refilter_line_said))]
    fn read_refilter(&mut self, arguments: &[&str], filter: &str) -> Result<(), Refusal>
        ensures { Reads self.old (codes "refilter" ∷ texts arguments.now) filter.now
            (refilter_line_said (seen self.old) (texts arguments.now) filter.now) result self.new }
    {
        let (device, filter) = self.device_and_filter(arguments, filter)?;
        self.take(Command::Refilter { device, filter })
    }

    // `list DEV`
    #[tactic(auto, unfolding(crate::specs::Saying::list_line_said, crate::specs::Saying::command_said))]
    fn read_list(&mut self, arguments: &[&str]) -> Result<(), Refusal>
        ensures { Reads self.old (codes "list" ∷ texts arguments.now) []
            (list_line_said (seen self.old) (texts arguments.now)) result self.new }
    {
        let [name] = arguments else {
            return Err(Refusal::Fault(LineFault::WrongFields));
        };
        let device = self.first_device(name)?;
        self.take(Command::List { device })
    }

    // `conflicts DEV`
    #[tactic(auto, unfolding(crate::specs::Saying::conflicts_line_said, crate::specs::Saying::command_said))]
    fn read_conflicts(&mut self, arguments: &[&str]) -> Result<(), Refusal>
        ensures { Reads self.old (codes "conflicts" ∷ texts arguments.now) []
            (conflicts_line_said (seen self.old) (texts arguments.now)) result self.new }
    {
        let [name] = arguments else {
            return Err(Refusal::Fault(LineFault::WrongFields));
        };
        let device = self.first_device(name)?;
        self.take(Command::Conflicts { device })
    }

    // `knowledge DEV`
    #[tactic(auto, unfolding(crate::specs::Saying::knowledge_line_said, crate::specs::Saying::command_said))]
    fn read_knowledge(&mut self, arguments: &[&str]) -> Result<(), Refusal>
        ensures { Reads self.old (codes "knowledge" ∷ texts arguments.now) []
            (knowledge_line_said (seen self.old) (texts arguments.now)) result self.new }
    {
        let [name] = arguments else {
            return Err(Refusal::Fault(LineFault::WrongFields));
        };
        let device = self.first_device(name)?;
        self.take(Command::Knowledge { device })
    }

    // `knows DEV PIC VERSION`
    #[tactic(auto, unfolding(crate::specs::Saying::knows_line_said, crate::specs::Saying::command_said, crate::specs::Saying::question_said))]
    fn read_knows(&mut self, arguments: &[&str]) -> Result<(), Refusal>
        ensures { Reads self.old (codes "knows" ∷ texts arguments.now) []
            (knows_line_said (seen self.old) (texts arguments.now)) result self.new }
    {
        let [name, picture, version] = arguments else {
            return Err(Refusal::Fault(LineFault::WrongFields));
        };
        let device = self.first_device(name)?;
        let picture = any_picture(picture)?;
        let version = self.version(version)?;
        self.take(Command::Knows {
            device,
            picture,
            version,
        })
    }

    // `NAME` or `NAME.E`, a declared device in its first epoch or a later one.
    #[tactic(auto, unfolding(crate::specs::Saying::author_said))]
    fn author(&self, text: &str) -> Result<Author, LineFault>
        ensures { result ≡ author_said (seen self.now) text.now }
    {
        let Some((name, epoch)) = cut_at_dot(text) else {
            let device = self.device(text)?;
            return Ok(Author::new(device));
        };
        let device = self.device(name)?;
        let epoch = epoch_of(epoch).ok_or(LineFault::BadNumber)?;
        Ok(Author::at(device, epoch))
    }

    // `NAME:N` or `NAME.E:N`, a version of a declared device.
    #[tactic(auto, unfolding(crate::specs::Saying::version_said))]
    fn version(&self, text: &str) -> Result<Version, LineFault>
        ensures { result ≡ version_said (seen self.now) text.now }
    {
        let Some((author, number)) = cut_at_colon(text) else {
            return Err(LineFault::BadNumber);
        };
        let author = self.author(author)?;
        let number = version_number_of(number).ok_or(LineFault::BadNumber)?;
        Version::new(author, number).ok_or(LineFault::BadNumber)
    }

    // Reads the target and the source of a command, which are different devices, if there is room for one more command.
    #[tactic(auto, unfolding(crate::specs::Saying::two_devices_said, crate::specs::Saying::two_said))]
    fn two_devices(&self, arguments: &[&str]) -> Result<(u16, u16), LineFault>
        ensures said { result ≡ two_devices_said (seen self.now) (texts arguments.now) }
        ensures target { IfOk result (λ two. two.0 < length self.now.script.names) }
        ensures source { IfOk result (λ two. two.1 < length self.now.script.names) }
        ensures apart { IfOk result (λ two. two.1 ≢ two.0) }
        ensures room { OnOk result (length self.now.script.commands < max_commands) }
    {
        let [target, source] = arguments else {
            return Err(LineFault::WrongFields);
        };
        let target = self.first_device(target)?;
        let source = self.device(source)?;
        if target == source {
            return Err(LineFault::SameDevice);
        }
        Ok((target, source))
    }

    // Reads a command's device and the device's new filter, if there is room for one more command.
    #[tactic(auto, unfolding(crate::specs::Saying::device_and_filter_said, crate::specs::Saying::filtering_said))]
    fn device_and_filter(&self, arguments: &[&str], filter: &str) -> Result<(u16, Filter), Refusal>
        ensures said { Gives (λ new. new) result (device_and_filter_said (seen self.now) (texts arguments.now) filter.now) }
        ensures device { IfOk result (λ new. new.0 < length self.now.script.names) }
        ensures room { OnOk result (length self.now.script.commands < max_commands) }
    {
        let Some((name, others)) = arguments.split_first() else {
            return Err(Refusal::Fault(LineFault::WrongFields));
        };
        if others.is_empty() {
            return Err(Refusal::Fault(LineFault::WrongFields));
        }
        let device = self.first_device(name)?;
        let filter = filter_of(self.alloc, filter)?;
        Ok((device, filter))
    }

    // Reads the first device of a command, if there is room for one more command.
    #[tactic(auto, unfolding(crate::specs::Steps::first_said))]
    fn first_device(&self, name: &str) -> Result<u16, LineFault>
        ensures said { result ≡ first_said (seen self.now) name.now }
        ensures within { IfOk result (λ i. i < length self.now.script.names) }
        ensures room { OnOk result (length self.now.script.commands < max_commands) }
    {
        if self.script.commands() >= MAX_COMMANDS {
            return Err(LineFault::TooMany);
        }
        self.device(name)
    }

    // Gives the device of that name.
    #[tactic(auto, unfolding(crate::specs::Saying::device_said))]
    fn device(&self, name: &str) -> Result<u16, LineFault>
        ensures said { result ≡ device_said (seen self.now) name.now }
        ensures within { IfOk result (λ i. i < length self.now.script.names) }
    {
        self.script.place(name).ok_or(LineFault::UnknownDevice)
    }

    // Reads the number of a picture that this line makes and that no earlier line makes.
    #[tactic(auto, unfolding(crate::specs::Saying::new_picture_said))]
    fn new_picture(&mut self, text: &str) -> Result<PicNo, Refusal>
        ensures said { Gives (λ number. number) result (new_picture_said (seen self.old) text.now) }
        ensures script { self.new.script ≡ self.old.script }
        ensures kept { OnErr result (IsAsItWas self.old self.new) }
        ensures made { IfOk result (λ number. Updates nat_cmp self.old.pictures self.new.pictures number true) }
    {
        let picture = picture_of(text).ok_or(LineFault::BadNumber)?;
        if !self.pictures.insert(picture.value())? {
            return Err(Refusal::Fault(LineFault::RepeatedPicture));
        }
        Ok(picture)
    }

    /// Keeps the first `devices` devices and the first `commands` commands, and forgets the picture `made`.
    pub(crate) fn go_back(&mut self, devices: usize, commands: usize, made: Option<u32>)
        ensures { (was : Reader) → Leads was devices commands made self.old → IsAsItWas was self.new }
    {
        self.script.keep_commands(commands);
        self.script.keep_devices(devices);
        if let Some(picture) = made {
            self.pictures.remove(&picture);
        }
    }

    // Appends the command of a line.
    fn take(&mut self, command: Command) -> Result<(), Refusal>
        requires room { length self.old.script.commands < max_commands }
        requires known { IsWithin (length self.old.script.names) command }
        requires in_range { IfSome (record_of command) IsInRange }
        ensures { TakesLast command self.old result self.new }
    {
        self.script.push(command)?;
        Ok(())
    }
}

// Reads a picture number, even of a picture that no line makes.
#[tactic(auto, unfolding(crate::specs::Saying::picture_said))]
fn any_picture(text: &str) -> Result<PicNo, LineFault>
    ensures { result ≡ picture_said text.now }
{
    picture_of(text).ok_or(LineFault::BadNumber)
}

// Reads a record, whose set of words is shared with earlier lines.
#[tactic(auto, unfolding(crate::specs::Saying::record_said))]
pub(crate) fn record_of(
    sets: &mut WordSets,
    rating: &str,
    date: &str,
    words: &str,
) -> Result<Record, Refusal>
    ensures said { Gives (λ r. r) result (record_said rating.now date.now words.now) }
    ensures memory { result ≡ Err Memory → (rating_of_text rating.now ≢ None) × (day_of_text date.now ≢ None) }
    ensures in_range { IfOk result IsInRange }
{
    let rating = Rating::read(rating).ok_or(LineFault::BadRating)?;
    let day = Day::read(date).ok_or(LineFault::BadDate)?;
    let words = match sets.read(words) {
        Ok(words) => words,
        Err(WordFault::NoMemory) => return Err(Refusal::Memory),
        Err(_) => return Err(Refusal::Fault(LineFault::BadKeyword)),
    };
    Ok(Record::Picture { rating, day, words })
}
