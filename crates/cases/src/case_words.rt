// What a case asks: a command, the connections that come, the rows of the store and of the
// database, the calls that fail, and the call of the keeper that waits:
// `serve here store with ann bob over rows failing keeper:4 holding 8 until bob 1`,
// `store here there over rows into others failing database:2`.
use case_tables::{CaseFault, number_of};
use scripted_edges::{HeldCall, milestone_of};

/// What a case asks. What it does not say is empty.
#[derive(Clone, Copy)]
pub struct ServingCase<'a> {
    /// The words of the command.
    pub words: &'a str,
    /// The files of the connections.
    pub links: &'a str,
    /// The file of the rows.
    pub rows: &'a str,
    /// The file of the rows of the database.
    pub database: &'a str,
    /// The calls that fail.
    pub failing: &'a str,
    /// The call that waits, and for what.
    pub held: &'a str,
}

fn parted<'a>(text: &'a str, mark: &str) -> (&'a str, &'a str) {
    text.split_once(mark).unwrap_or((text, ""))
}

/// What a case asks.
pub fn serving_case(text: &str) -> ServingCase<'_> {
    let (text, held) = parted(text, " holding ");
    let (text, failing) = parted(text, " failing ");
    let (text, database) = parted(text, " into ");
    let (text, rows) = parted(text, " over ");
    let (words, links) = parted(text, " with ");
    ServingCase {
        words,
        links,
        rows,
        database,
        failing,
        held,
    }
}

/// The call that waits, as in `8 until bob 1`, where the connections have these names.
pub fn held_call_of(names: &str, held: &str) -> Result<Option<HeldCall>, CaseFault> {
    if held.is_empty() {
        return Ok(None);
    }
    let (call, until) = held.split_once(" until ").ok_or(CaseFault::BadCase)?;
    let call = number_of(call)?;
    let until = milestone_of(names, until)?;
    Ok(Some(HeldCall { call, until }))
}
