//! The texts of the reports of a script in memory.
ghost use Rattle.std.specs.Prelude.{◌≡◌, ◌≤◌, length, map, string_bytes, IfOk, IfErr};
ghost use Rattle.std.specs.List.{AllByRecursion};
ghost use Rattle.fleet_model.specs.Limits.{max_commands};
ghost use Rattle.photo_script.specs.Reports.{answer_of, texts_from, IsAbout};
ghost use Rattle.live_script.specs.Printed.{IsOutput, IsPrinted};
ghost use Rattle.live_script.specs.Refused.{IsWhy};
ghost use Rattle.live_script.specs.declared.refusal.Refusal.TheVariants.{NoMemory};

use crate::Refusal;
use fleet_steps::laws::accepted_stays_sound;
use fleet_steps::run_plain;
use photo_script::{Report, Script, push_report, read_script};
use std::alloc::{AllocError, Global};

/// The texts of the reports of a script, which is run command by command.
pub fn plain_text(alloc: Global, bytes: &[u8]) -> Result<String, Refusal>
    ensures printed { IfOk result (λ text. IsPrinted bytes.now (string_bytes text)) }
    ensures refused { IfErr result (IsWhy bytes.now) }
{
    // The law that a script's run stays sound. It does nothing.
    accepted_stays_sound();
    match read_script(alloc, bytes) {
        Ok(script) => output(alloc, &script),
        Err(fault) => Err(Refusal::Script(fault)),
    }
}

// What a script's run prints. Its only error is want of memory.
fn output(alloc: Global, script: &Script) -> Result<String, Refusal>
    ensures printed { IfOk result (λ text. IsOutput script.now (string_bytes text)) }
    ensures err { IfErr result (λ e. e ≡ NoMemory) }
{
    let Ok(outcome) = run_plain(alloc, script) else {
        return Err(Refusal::NoMemory);
    };
    match reports_text(alloc, script, outcome.reports.as_slice()) {
        Ok(text) => Ok(text),
        Err(_) => Err(Refusal::NoMemory),
    }
}

// The texts of reports, numbered from 1, one after another.
fn reports_text(alloc: Global, script: &Script, reports: &[Report]) -> Result<String, AllocError>
    requires few { length reports.now ≤ max_commands }
    requires about { AllByRecursion (IsAbout script.now) (map answer_of reports.now) }
    ensures { IfOk result (λ text. string_bytes text ≡ texts_from script.now 1 (map answer_of reports.now)) }
{
    let mut text = String::new(alloc);
    let mut number = 0;
    for report in reports {
        number += 1;
        push_report(&mut text, script, number, report)?;
    }
    Ok(text)
}
