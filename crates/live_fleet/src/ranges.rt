// The types of records bound their ratings and days.
ghost use Rattle.std.specs.Prelude.{◌≤◌, IfSome};
ghost use Rattle.photo_record.specs.Limits.{max_rating, IsDay};
ghost use Rattle.photo_filter_rules.specs.Matching.{IsInRange};
ghost use Rattle.fleet_model.specs.Contents.{record_of};

use photo_record::{Day, Rating, Record};
use photo_script::Command;

/// If the command has a record, its rating and its day are in range.
pub(crate) fn command_in_range(command: &Command)
    ensures { IfSome (record_of command.now) IsInRange }
{
    match command {
        Command::New { record, .. } | Command::Edit { record, .. } => record_in_range(record),
        _ => {}
    }
}

fn record_in_range(content: &Record)
    ensures { IsInRange content.now }
{
    match content {
        Record::Picture { rating, day, .. } => parts_in_range(*rating, *day),
        Record::Removed => {}
    }
}

fn parts_in_range(rating: Rating, day: Day)
    ensures rating { rating ≤ max_rating }
    ensures day { IsDay day }
{
    // `value()` and `number()` are called because their contracts bound the rating and the day.
    let _rating = rating.value();
    let _day = day.number();
}
