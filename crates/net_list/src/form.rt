// The forms of a net list.

/// A form in which a net list is written.
#[derive(Clone, Copy, Debug, PartialEq, Eq)]
pub enum Form {
    /// A line for each package and each net.
    List,
    /// A block of lines for each package and each net that joins pins, as Tango reads them.
    Tango,
    /// A line for each net that joins pins, as PCB reads them.
    Pcb,
    /// A bill of materials as CSV: a record for each group of packages that are one article.
    Bom,
}
