// One worker a seat.
ghost use Rattle.std.specs.Prelude.{◌≡◌, IfOk, length};

use crate::connection::serve_link_with;
use crate::kept_reports::KeptReports;
use crate::messages::LinkMemory;
use gates::Gate;
use hall_core::{BoardHall, BoardSeat, Hall, HallName, Seat, ShowsBoard};
use keeper_core::Keeper;
use std::alloc::{AllocError, Global};
use std::sync::Wait;
use std::thread;
use std::thread::Threads;
use web_heads::Access;

/// What works with something, and hands it back.
trait Work<T> {
    fn work_with(&self, with: T) -> T;
}

// One worker for each of these. It knows nothing of seats and halls, whose types would make the
// check of the closure too long.
fn work_with_each<W: Threads + Sync, T: Send + Drop, J: Work<T> + Sync>(
    rt: &W,
    all: Vec<T>,
    job: &J,
) -> Result<Vec<T>, AllocError>
    ensures all { IfOk result (λ back. length back.items ≡ length all.items) }
{
    thread::map_vec(rt, all, &|with| job.work_with(with))
}

/// To serve the links of a gate until it gives none.
#[derive(Drop)]
struct LinkWork<'a, W: Wait, K: Keeper, B: HallName, S: ShowsBoard<B>, R: Wait + Drop, G: Gate> {
    rt: &'a W,
    alloc: Global,
    hall: &'a Hall<K, B, S, R>,
    reports: &'a KeptReports<B>,
    gate: &'a G,
    access: &'a Access,
}

impl<W: Wait, K: Keeper, B: HallName, S: ShowsBoard<B>, R: Wait + Drop, G: Gate> Work<Seat<B, S>>
    for LinkWork<'_, W, K, B, S, R, G> {
    fn work_with(&self, with: Seat<B, S>) -> Seat<B, S> {
        let mut seat = with;
        let Ok(mut memory) = LinkMemory::new(self.alloc) else {
            return seat;
        };
        for _ in 0..u64::MAX {
            let Some(mut link) = self.gate.next() else {
                break;
            };
            let (rt, alloc, hall) = (self.rt, self.alloc, self.hall);
            let (reports, access) = (self.reports, self.access);
            let _end = serve_link_with(
                rt,
                alloc,
                hall,
                &mut seat,
                reports,
                access,
                &mut memory,
                &mut link,
            );
        }
        seat
    }
}

/// Serves the links of a gate by one worker a seat of a hall (docs/RULES.md, "Serving"). Each takes
/// a link from the gate and answers its requests (`serve_link`), one link after the other, until
/// the gate gives none. All share the texts of reports that were made. It hands the seats back when
/// all workers have ended.
///
/// It waits for the gate, for links, and for the hall's lock; a net list or a check waits while
/// another worker makes one of its kind. Where no thread can be made, one worker begins when
/// another has ended; where there is no memory for the links of one, it ends at once.
pub fn serve_all<
    W: Threads + Wait + Sync,
    K: Keeper + Send,
    B: HallName + Send + Sync,
    R: Wait + Drop + Send,
    G: Gate + Sync,
>(
    rt: &W,
    alloc: Global,
    hall: &BoardHall<K, B, R>,
    seats: Vec<BoardSeat<B>>,
    gate: &G,
    access: &Access,
) -> Result<Vec<BoardSeat<B>>, AllocError>
    ensures all { IfOk result (λ back. length back.items ≡ length seats.items) }
{
    let reports = KeptReports::new();
    let work = LinkWork {
        rt,
        alloc,
        hall,
        reports: &reports,
        gate,
        access,
    };
    work_with_each(rt, seats, &work)
}
