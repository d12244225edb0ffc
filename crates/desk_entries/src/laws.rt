// What follows of the definitions, in the words of the rules.
ghost use Rattle.std.specs.Prelude.{◌≡◌, ◌+◌, None, length};
ghost use Rattle.edit_rules.specs.EarlyLines.{last_number};
ghost use Rattle.edit_rules.specs.Histories.{project};
ghost use Rattle.attr_table.specs.Filling.{filled, table_entries};
ghost use Rattle.attr_table.specs.Records.{records_of};
ghost use Rattle.attr_table.specs.TableFaults.{table_fault};
ghost use Rattle.desk_entries.specs.ReadAgain.{AreReadAgain};
ghost use Rattle.desk_entries.specs.TableEntries.{ActOnce};
ghost use Rattle.desk_entries.specs.steps.Ranges.{AreInRange, IsInRange};

use edit_desk::Desk;
use geda_model::Name;
use project_model::Project;

// Tells that the object of an id is in its ranges.
fn tell_range(project: &Project, id: u32)
    ensures { IsInRange project.now.contents id }
{
    let Some(placed) = project.object(id) else {
        return;
    };
    // A field is read so that the proof sees that the object is in range.
    let _ = &placed.object.body;
}

// Tells that each object is in its ranges.
fn tell_ranges(project: &Project)
    ensures { AreInRange project.now.contents }
{
    for id in 0..u32::MAX {
        tell_range(project, id);
    }
    tell_range(project, u32::MAX);
}

/// The text of each object of a desk's project reads as that object, where it is no longer than a
/// file may be.
pub fn read_again(desk: &Desk)
    ensures { AreReadAgain (project desk.now.history) }
{
    tell_ranges(desk.project());
}

/// A table that comes twice acts once. Its entries, which follow the history of a desk and the last
/// number that the session has there, are accepted in their order, up to one that finds the history
/// or the project full, or whose text is longer than a file may be. Where all are, the project is
/// the filled one, and each of them that comes again changes nothing.
pub fn twice(desk: &Desk, sheet: &Name, table: &[u8], session: &Name, first: u32)
    ensures { last_number desk.now.history session.now + 1 ≡ first →
        table_fault (project desk.now.history) sheet.now (records_of table.now) ≡ None →
        ActOnce desk.now.history
        (table_entries (project desk.now.history) sheet.now (records_of table.now)
        session.now first (length desk.now.history))
        (filled (project desk.now.history) sheet.now (records_of table.now)) }
{
    // The length is asked for so that the proof sees that the history is legal.
    let _ = desk.front();
    tell_ranges(desk.project());
}
