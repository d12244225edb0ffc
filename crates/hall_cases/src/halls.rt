// A hall with two seats, which serve connections in turn.
ghost use Rattle.std.specs.Prelude.{◌≡◌, ◌+◌, ◌*◌};

use crate::connections::{Connection, link_of};
use crate::hall_fault::HallFault;
use hall_core::{Hall, HallName, Keys, NewLog, Places, Seat, ShowsBoard, close_hall, open_hall};
use hall_server::serve_link;
use keeper_core::MemoryKeeper;
use std::alloc::{AllocError, Global};
use std::marker::Brand;
use std::mem;
use std::sync::Wait;
use web_heads::Access;

/// What is seen of the groups of a board.
#[derive(Clone, Copy)]
pub struct GroupsLook {
    /// The steps that they took.
    pub steps: u64,
    /// Whether those of all sheets are kept.
    pub are_kept: bool,
}

/// What came of a hall.
#[derive(Drop)]
pub struct Served {
    /// Its connections.
    pub connections: Vec<Connection>,
    /// How many entries there are in the end, and the groups of the board; none where the look at
    /// them was refused.
    pub last_look: Option<(u32, GroupsLook)>,
    /// Its keeper.
    pub keeper: MemoryKeeper,
    /// Whether the keeper's rows hold all that the seats have seen.
    pub held: bool,
}

fn serve_input<W: Wait, B: HallName, S: ShowsBoard<B>, R: Wait + Drop>(
    rt: &W,
    alloc: Global,
    hall: &Hall<MemoryKeeper, B, S, R>,
    seat: &mut Seat<B, S>,
    access: &Access,
    input: Vec<u8>,
) -> Result<Connection, AllocError> {
    let mut link = link_of(alloc, input, Vec::new(alloc))?;
    let end = serve_link(rt, alloc, hall, seat, access, &mut link);
    Ok(Connection { end, link })
}

/// Serves each input by the next of the seats, and after the last by the first again.
fn serve_inputs<W: Wait, B: HallName, S: ShowsBoard<B>, R: Wait + Drop>(
    rt: &W,
    alloc: Global,
    hall: &Hall<MemoryKeeper, B, S, R>,
    seats: &mut Vec<Seat<B, S>>,
    access: &Access,
    inputs: Vec<Vec<u8>>,
) -> Result<Vec<Connection>, AllocError> {
    let mut connections = Vec::new(alloc);
    let mut place = 0;
    for input in inputs {
        let Some(seat) = seats.get_mut(place) else {
            break;
        };
        connections.push(serve_input(rt, alloc, hall, seat, access, input)?)?;
        place = if place == 0 { 1 } else { 0 };
    }
    Ok(connections)
}

/// The look of the first seat.
fn last_look<B: HallName, S: ShowsBoard<B>>(
    seats: &mut Vec<Seat<B, S>>,
) -> Option<(u32, GroupsLook)> {
    let seat = seats.get_mut(0)?;
    seat.look(|board| GroupsLook {
        steps: board.asked(),
        are_kept: board.is_fresh(),
    })
}

/// Serves the inputs, and closes the hall.
fn serve_and_close<W: Wait, B: HallName, S: ShowsBoard<B>, R: Wait + Drop>(
    rt: &W,
    alloc: Global,
    hall: &Hall<MemoryKeeper, B, S, R>,
    keys: Keys<B>,
    seats: &mut Vec<Seat<B, S>>,
    access: &Access,
    inputs: Vec<Vec<u8>>,
) -> Result<Served, HallFault>
    requires { B.parts ≡ B.seats * 2 + 1 }
{
    let connections = serve_inputs(rt, alloc, hall, seats, access, inputs)?;
    let last_look = last_look(seats);
    let (keeper, held) = close_hall(rt, hall, keys, seats.as_mut_slice());
    Ok(Served {
        connections,
        last_look,
        keeper,
        held,
    })
}

/// Opens a hall under a name. The hall and its seats stand to the end of the process.
fn serve_named<W: Wait, B: HallName>(
    rt: &W,
    alloc: Global,
    log: NewLog,
    keeper: MemoryKeeper,
    access: &Access,
    inputs: Vec<Vec<u8>>,
) -> Result<Served, HallFault>
    requires book { log.book ≡ B.book }
    requires ledger { (log.ledger ≡ B.name) × (log.parts ≡ B.parts) }
    requires seats { (B.parts ≡ B.seats * 2 + 1) × (B.seats ≡ 2) }
{
    let mut places = Places::new();
    let named = log.named::<B>();
    match open_hall(alloc, rt, named, keeper, 2, &mut places) {
        Ok((hall, seats, keys)) => {
            let mut seats = seats;
            let served = serve_and_close(rt, alloc, &hall, keys, &mut seats, access, inputs);
            mem::forget(seats);
            mem::forget(hall);
            served
        }
        Err(fault) => Err(HallFault::NotOpen(fault)),
    }
}

/// Opens a hall over a keeper, has its two seats serve the inputs in turn by some options, and
/// closes it.
pub fn serve_new<W: Wait>(
    rt: &W,
    alloc: Global,
    keeper: MemoryKeeper,
    access: &Access,
    inputs: Vec<Vec<u8>>,
) -> Result<Served, HallFault> {
    serve_named::<W, Brand>(rt, alloc, NewLog::new(2), keeper, access, inputs)
}
