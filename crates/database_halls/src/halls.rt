// A hall with one seat over any keeper, which serves one connection.
ghost use Rattle.std.specs.Prelude.{◌≡◌, ◌+◌, ◌*◌};

use case_tables::CaseFault;
use hall_core::{Hall, HallName, Keys, NewLog, Places, Seat, ShowsBoard, close_hall, open_hall};
use hall_server::{LinkEnd, serve_link};
use keeper_core::Keeper;
use std::alloc::Global;
use std::marker::Brand;
use std::mem;
use std::sync::Wait;
use web_heads::{Access, MemoryLink};

/// What came of a hall.
#[derive(Drop)]
pub struct Served<K: Keeper> {
    /// How its connection ended.
    pub end: LinkEnd,
    /// What the connection read and wrote.
    pub link: MemoryLink,
    /// Its keeper.
    pub keeper: K,
    /// Whether the keeper's rows hold all that the seat has seen.
    pub held: bool,
}

/// Serves a connection by the first seat, and closes the hall.
fn serve_and_close<W: Wait, K: Keeper, B: HallName, S: ShowsBoard<B>, R: Wait + Drop>(
    rt: &W,
    alloc: Global,
    hall: &Hall<K, B, S, R>,
    keys: Keys<B>,
    seats: &mut Vec<Seat<B, S>>,
    link: MemoryLink,
) -> Result<Served<K>, CaseFault>
    requires { B.parts ≡ B.seats * 2 + 1 }
{
    let mut link = link;
    let seat = seats.get_mut(0).ok_or(CaseFault::BadCase)?;
    let end = serve_link(rt, alloc, hall, seat, &Access::open(alloc), &mut link);
    let (keeper, held) = close_hall(rt, hall, keys, seats.as_mut_slice());
    Ok(Served {
        end,
        link,
        keeper,
        held,
    })
}

/// Opens a hall under a name. The hall and its seat stand to the end of the process.
fn serve_named<W: Wait, K: Keeper, B: HallName>(
    rt: &W,
    alloc: Global,
    log: NewLog,
    keeper: K,
    link: MemoryLink,
) -> Result<Served<K>, CaseFault>
    requires book { log.book ≡ B.book }
    requires ledger { (log.ledger ≡ B.name) × (log.parts ≡ B.parts) }
    requires seats { (B.parts ≡ B.seats * 2 + 1) × (B.seats ≡ 1) }
{
    let mut places = Places::new();
    let named = log.named::<B>();
    match open_hall(alloc, rt, named, keeper, 1, &mut places) {
        Ok((hall, seats, keys)) => {
            let mut seats = seats;
            let served = serve_and_close(rt, alloc, &hall, keys, &mut seats, link);
            mem::forget(seats);
            mem::forget(hall);
            served
        }
        Err(_) => Err(CaseFault::BadCase),
    }
}

/// Opens a hall over a keeper, has its seat serve a connection, and closes it.
pub fn serve_new<W: Wait, K: Keeper>(
    rt: &W,
    alloc: Global,
    keeper: K,
    link: MemoryLink,
) -> Result<Served<K>, CaseFault> {
    serve_named::<W, K, Brand>(rt, alloc, NewLog::new(1), keeper, link)
}
