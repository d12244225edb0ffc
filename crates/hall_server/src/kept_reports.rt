// The last texts of all kinds.
use crate::last_text::LastText;
use crate::report_kind::ReportKind;
use hall_log::HallName;
use reports::Form;
use std::sync::Mutex;

/// The texts of reports that all workers of a server share: of each kind the one that was made
/// last. Who makes one holds the lock of its kind, so that no two of a kind are made at once.
#[derive(Drop)]
pub struct KeptReports<B: HallName> {
    list: Mutex<LastText<B>>,
    tango: Mutex<LastText<B>>,
    pcb: Mutex<LastText<B>>,
    bom: Mutex<LastText<B>>,
    drc: Mutex<LastText<B>>,
}

impl<B: HallName> KeptReports<B> {
    /// None yet. It takes no memory.
    pub fn new() -> KeptReports<B> {
        KeptReports {
            list: Mutex::new(LastText::none()),
            tango: Mutex::new(LastText::none()),
            pcb: Mutex::new(LastText::none()),
            bom: Mutex::new(LastText::none()),
            drc: Mutex::new(LastText::none()),
        }
    }

    /// The last text of a kind, behind the lock that who makes the next one holds.
    pub fn last(&self, kind: ReportKind) -> &Mutex<LastText<B>> {
        match kind {
            ReportKind::Net(Form::List) => &self.list,
            ReportKind::Net(Form::Tango) => &self.tango,
            ReportKind::Net(Form::Pcb) => &self.pcb,
            ReportKind::Net(Form::Bom) => &self.bom,
            ReportKind::Drc => &self.drc,
        }
    }
}
