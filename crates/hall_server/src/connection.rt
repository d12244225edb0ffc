// A connection of a hall.
ghost use Rattle.std.specs.Prelude.{◌≡◌, ◌≢◌};
ghost use Rattle.geda_defs.specs.Causes.{HasRisen};
ghost use Rattle.edit_rules.specs.Verdicts.{Legal};
ghost use Rattle.hall_server.specs.Completeness.{CompletesConnection};
ghost use Rattle.hall_server.specs.Connections.{Serves};
ghost use Rattle.hall_server.specs.Stands.{stand_of};

use crate::kept_reports::KeptReports;
use crate::link_end::LinkEnd;
use crate::messages::{LinkMemory, serve_requests_with};
use crate::seat_service::SeatService;
use hall_core::{Hall, HallName, Seat, ShowsBoard};
use keeper_core::Keeper;
use std::alloc::Global;
use std::sync::Wait;
use web_heads::{Access, Link};

/// Answers the requests of a link in order until it ends, at most 10,000, by a seat of a hall
/// (docs/RULES.md, "Transcripts", "Ends of connections", "Seats"). It waits for the link, and for
/// an edit for the hall's lock, and there for looks at the board, which are over before a text is
/// made. `access` says which heads are let in, and as whom a message speaks ("Foreign heads",
/// "Users").
///
/// What the seat has seen in the end is a legal history, which begins with what it had seen. Each
/// reply is what a prefix of it answers the request, byte for byte, and the prefixes never shrink;
/// or it is 503, or 500, of which there are at most as many as the seat's refusals rose, or 507, by
/// whose number its losses rose. After `NoMemory` nothing was read or written, and the seat has
/// seen what it had.
pub fn serve_link<W: Wait, K: Keeper, B: HallName, S: ShowsBoard<B>, R: Wait + Drop, L: Link>(
    rt: &W,
    alloc: Global,
    hall: &Hall<K, B, S, R>,
    seat: &mut Seat<B, S>,
    access: &Access,
    link: &mut L,
) -> LinkEnd
    // what was answered, and how it ended
    ensures serves { Serves access.now (stand_of seat.old) (stand_of seat.new)
        (L.input link.old) (L.input link.new) (L.output link.old) (L.output link.new) result }
    ensures legal { Legal seat.new.seen }
    // the causes of the ends that are none of the input
    ensures read_cause { result ≡ LinkEnd.ReadFault →
        HasRisen (L.read_faults link.old) (L.read_faults link.new) }
    ensures write_cause { result ≡ LinkEnd.WriteFault →
        HasRisen (L.write_faults link.old) (L.write_faults link.new) }
    ensures no_memory { result ≡ LinkEnd.NoMemory → seat.new.seen ≡ seat.old.seen }
    // all was answered where nothing failed
    ensures complete { CompletesConnection access.now (stand_of seat.old) (stand_of seat.new)
        (L.read_faults link.old) (L.read_faults link.new)
        (L.write_faults link.old) (L.write_faults link.new)
        (L.input link.old) (L.output link.old) (L.output link.new) result }
{
    // The call shows the proof that what was seen is legal.
    let _history = seat.front();
    let Ok(mut memory) = LinkMemory::new(alloc) else {
        return LinkEnd::NoMemory;
    };
    serve_link_with(
        rt,
        alloc,
        hall,
        seat,
        &KeptReports::new(),
        access,
        &mut memory,
        link,
    )
}

/// Answers the requests of a link as `serve_link` does, with the texts of reports that all workers
/// share, and in memory that there is.
pub(crate) fn serve_link_with<
    W: Wait,
    K: Keeper,
    B: HallName,
    S: ShowsBoard<B>,
    R: Wait + Drop,
    L: Link,
>(
    rt: &W,
    alloc: Global,
    hall: &Hall<K, B, S, R>,
    seat: &mut Seat<B, S>,
    reports: &KeptReports<B>,
    access: &Access,
    memory: &mut LinkMemory,
    link: &mut L,
) -> LinkEnd
    // what was answered, and how it ended
    ensures serves { Serves access.now (stand_of seat.old) (stand_of seat.new)
        (L.input link.old) (L.input link.new) (L.output link.old) (L.output link.new) result }
    ensures legal { Legal seat.new.seen }
    // the causes of the ends that are none of the input
    ensures read_cause { result ≡ LinkEnd.ReadFault →
        HasRisen (L.read_faults link.old) (L.read_faults link.new) }
    ensures write_cause { result ≡ LinkEnd.WriteFault →
        HasRisen (L.write_faults link.old) (L.write_faults link.new) }
    ensures no_memory { result ≢ LinkEnd.NoMemory }
    // all was answered where nothing failed
    ensures complete { CompletesConnection access.now (stand_of seat.old) (stand_of seat.new)
        (L.read_faults link.old) (L.read_faults link.new)
        (L.write_faults link.old) (L.write_faults link.new)
        (L.input link.old) (L.output link.old) (L.output link.new) result }
{
    // The call shows the proof that what was seen is legal.
    let _history = seat.front();
    let mut service = SeatService {
        rt,
        hall,
        seat,
        reports,
    };
    serve_requests_with(alloc, &mut service, access, memory, link)
}
