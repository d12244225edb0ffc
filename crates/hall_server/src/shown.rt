// What a report comes to.
use reports::ReportFault;
use web_requests::Bytes;

/// What a report comes to. `front` is the length of the history on which it stands.
#[derive(Debug, Drop)]
pub enum Shown {
    /// The text of the report.
    Text {
        /// The length of the history.
        front: u32,
        /// The text.
        body: Bytes,
    },
    /// The report wants a longer history.
    Behind {
        /// The length of the history.
        front: u32,
    },
    /// There is no report.
    Fault {
        /// The length of the history.
        front: u32,
        /// Why; never `NoMemory`.
        fault: ReportFault,
    },
    /// What was seen could not be looked at.
    NoEntry,
    /// There was no memory.
    NoMemory,
}
