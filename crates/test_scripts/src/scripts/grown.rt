// Scripts that grow by lines, and what each line says.
use photo_script::{GrowingScript, Said, Script, read_script};
use script_text::script_text;
use std::alloc::Global;

/// A line, with what it says or the fault by which it is refused; or that the last line is taken back.
#[derive(Clone, Copy)]
enum Step {
    Line(&'static str, &'static str),
    Back,
}

// Whether each line says what is wanted, and the script is that of the text then.
fn is_grown(alloc: Global, steps: &[Step], text: &str) -> bool {
    let mut script = GrowingScript::new(alloc);
    for step in steps {
        if !is_done(alloc, &mut script, step) {
            return false;
        }
    }
    is_of(alloc, script.script(), text)
}

fn is_done(alloc: Global, script: &mut GrowingScript, step: &Step) -> bool {
    match step {
        Step::Line(line, wanted) => is_taken(alloc, script, line, wanted),
        Step::Back => {
            script.take_back();
            true
        }
    }
}

fn is_taken(alloc: Global, script: &mut GrowingScript, line: &str, wanted: &str) -> bool {
    if line.as_bytes().contains(&b'\n') {
        return false;
    }
    match script.push(line.as_bytes()) {
        Ok(Said::Nothing) => wanted == "nothing",
        Ok(Said::Device) => wanted == "device",
        Ok(Said::Command) => wanted == "command",
        Err(fault) => super::is_told(alloc, fault, wanted),
    }
}

// Whether a script is that of a text: both have the same own text.
fn is_of(alloc: Global, script: &Script, text: &str) -> bool {
    let Ok(read) = read_script(alloc, text.as_bytes()) else {
        return false;
    };
    match (script_text(alloc, script), script_text(alloc, &read)) {
        (Ok(Some(grown)), Ok(Some(whole))) => grown.as_str() == whole.as_str(),
        _ => false,
    }
}

const GROWN: &[(&[Step], &str)] = &[
    (&[], ""),
    (
        &[
            Step::Line("", "nothing"),
            Step::Line("# two devices", "nothing"),
            Step::Line("device a all", "device"),
            Step::Line("device b  not ( all )\r", "device"),
            Step::Line("new a 1 5 2024-05-01 x,y", "command"),
            Step::Line("  pull b a ", "command"),
            Step::Line("list b", "command"),
        ],
        "\n# two devices\ndevice a all\ndevice b not all\nnew a 1 5 2024-05-01 x,y\npull b a\nlist b",
    ),
    // refused lines have the number of the place where they would stand, and leave the script as it was
    (
        &[
            Step::Line("list a", "line 1: F8 UnknownDevice"),
            Step::Line("device a all", "device"),
            Step::Line("device a all", "line 2: F9 RepeatedDevice"),
            Step::Line("new a 1 6 2024-05-01 -", "line 2: F12 BadRating"),
            Step::Line("new a 1 5 2024-05-01 -", "command"),
            Step::Line("new a 1 5 2024-05-01 -", "line 3: F16 RepeatedPicture"),
            Step::Line("device b all", "line 3: F10 LateDevice"),
        ],
        "device a all\nnew a 1 5 2024-05-01 -",
    ),
    // what is taken back was never there: a device, a picture, a remark
    (
        &[
            Step::Line("device a all", "device"),
            Step::Line("device b none", "device"),
            Step::Back,
            Step::Line("device c all", "device"),
            Step::Line("new b 1 5 2024-05-01 -", "line 3: F8 UnknownDevice"),
            Step::Line("new a 1 5 2024-05-01 -", "command"),
            Step::Back,
            Step::Back,
            Step::Line("device d all", "device"),
            Step::Line("new d 1 4 2024-05-01 -", "command"),
            Step::Line("#", "nothing"),
            Step::Back,
            Step::Line("list a", "command"),
            Step::Back,
            Step::Line("frob", "line 5: F5 UnknownCommand"),
        ],
        "device a all\ndevice c all\ndevice d all\nnew d 1 4 2024-05-01 -",
    ),
    // a refused line leaves what can be taken back: the line before it, or none
    (
        &[
            Step::Line("frob", "line 1: F5 UnknownCommand"),
            Step::Back,
            Step::Line("device a all", "device"),
            Step::Line("device b all", "device"),
            Step::Line("frob", "line 3: F5 UnknownCommand"),
            Step::Back,
            Step::Line("device a none", "line 2: F9 RepeatedDevice"),
            Step::Back,
        ],
        "device a all",
    ),
];

// Whether a script that was read from a text has no line that can be taken back, also after a refused line.
fn is_settled(alloc: Global, text: &str) -> bool {
    let Ok(mut script) = GrowingScript::of(alloc, text.as_bytes()) else {
        return false;
    };
    script.take_back();
    is_taken(alloc, &mut script, "frob", "line 3: F5 UnknownCommand")
        && {
            script.take_back();
            is_of(alloc, script.script(), text)
        }
}

#[test]
fn scripts_grow(rt: HostRuntime) {
    for (steps, text) in GROWN {
        assert!(rt; is_grown(rt.alloc(), steps, text), "{text}");
    }
}

#[test]
fn read_scripts_are_settled(rt: HostRuntime) {
    assert!(rt; is_settled(rt.alloc(), "device a all\nlist a"));
}
