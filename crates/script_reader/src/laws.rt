//! Laws of the definitions. Each function's contract is a law, and its body does nothing.
ghost use Rattle.script_reader.specs.Laws.{AcceptedAreScripts};
ghost use Rattle.script_reader.specs.Examples.{SingleFaults, TwoFaults, LinesAndFields, Filters, Changes};
ghost use Rattle.script_reader.specs.Examples.{Questions, LaterEpochs, Moves, OtherMoves, ManyDevices};

/// Every text that the definition accepts is a script: it is within the limits, each device has a filter, commands name only
/// declared devices, and records are in range.
pub fn accepted_are_scripts()
    ensures { AcceptedAreScripts }
{}

/// Worked examples of the definitions: scripts with one fault and with two; ends of lines and spaces; filters; later versions of
/// a picture; questions about what devices know; pulls, previews and changes of filters; the most devices.
pub fn examples()
    ensures single_faults { SingleFaults }
    ensures two_faults { TwoFaults }
    ensures lines_and_fields { LinesAndFields }
    ensures filters { Filters }
    ensures changes { Changes }
    ensures questions { Questions }
    ensures later_epochs { LaterEpochs }
    ensures moves { Moves }
    ensures other_moves { OtherMoves }
    ensures many_devices { ManyDevices }
{}
