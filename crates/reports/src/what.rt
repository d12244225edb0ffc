// What is reported.
use geda_model::Name;
use net_list::Form;

/// What is reported of a project (docs/FORMATS.md, "Reports").
#[derive(Debug, Drop)]
pub enum What {
    /// Its net list in a form.
    Net(Form),
    /// What the check finds.
    Drc,
    /// The canonical text of a sheet.
    Sheet(Name),
    /// The canonical text of a symbol.
    Symbol(Name),
    /// The ids of the objects of a sheet, each with its letter.
    Objects(Name),
    /// The names of the sheets, each with the number of its objects.
    Sheets,
}
