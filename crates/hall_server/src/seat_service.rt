// A seat of a hall, as what answers the requests of a connection.
use crate::kept_reports::KeptReports;
use crate::report_kind::kind_of;
use crate::seat_reports::{kept_report, report_in_look};
use crate::service::Service;
use crate::shown::Shown;
use edit_entries::Entry;
use hall_core::{Hall, HallName, Seat, ShowsBoard, edit};
use keeper_core::{Keeper, Reply};
use reports::What;
use std::alloc::Global;
use std::sync::Wait;

/// A seat of a hall, with the hall that its edits go to, and the texts of reports that are kept.
#[derive(Drop)]
pub struct SeatService<'a, W: Wait, K: Keeper, B: HallName, S: ShowsBoard<B>, R: Wait + Drop> {
    pub rt: &'a W,
    pub hall: &'a Hall<K, B, S, R>,
    pub seat: &'a mut Seat<B, S>,
    pub reports: &'a KeptReports<B>,
}

impl<W: Wait, K: Keeper, B: HallName, S: ShowsBoard<B>, R: Wait + Drop> Service
    for SeatService<'_, W, K, B, S, R> {
    ghost use Rattle.std.specs.Prelude.{Some};

    ghost seen = { λ s. s.seat.now.seen };

    ghost losses = { λ s. s.seat.now.losses };

    ghost refusals = { λ s. s.seat.now.refusals };

    ghost reference = { λ s. Some s.seat.ghost_name };

    fn edit(&mut self, _alloc: Global, entry: Entry) -> Reply {
        let reply = edit(self.rt, self.hall, self.seat, entry);
        // The call shows the proof that what was seen is legal.
        let _history = self.seat.front();
        reply
    }

    fn front(&mut self) -> u32 {
        match self.seat.look(|_board| ()) {
            Some((front, ())) => front,
            None => self.seat.front(),
        }
    }

    fn report(&mut self, alloc: Global, least: Option<u64>, what: &What) -> Shown {
        match kind_of(what) {
            Some(kind) => kept_report(self.rt, alloc, self.seat, self.reports, least, kind),
            None => report_in_look(alloc, self.seat, least, what),
        }
    }
}
