// The index of conductors beside the plain definition, on drawings of a small grid (docs/RULES.md,
// "Touching").
ghost use Rattle.std.specs.Prelude.{◌≡◌, ◌<◌, IfOk};
ghost use Rattle.file_cases.specs.steps.Drawings.{key_at, HasFirst, HasOthers};

use case_tables::{CaseFault, cell, number_of};
use geda_geom::{Conductor, Key, Point, touches};
use std::alloc::{AllocError, Global};
use touch_index::{Sealed, TouchIndex};

/// Draws numbers: 48,271 times the last one, modulo 2,147,483,647.
#[derive(Drop)]
struct Draws {
    last: u64,
}

impl Draws {
    fn below(&mut self, count: u32) -> u32
        requires { 0 < count }
        ensures { result < count }
    {
        self.last = self.last.wrapping_mul(48271) % 2147483647;
        (self.last % u64::from(count)) as u32
    }

    fn point(&mut self) -> Point {
        let x = self.below(6) as i32;
        let y = self.below(6) as i32;
        Point { x, y }
    }

    /// A pin's end, a wire across or up, or one that slants.
    fn conductor(&mut self) -> Conductor {
        let a = self.point();
        let b = self.point();
        match self.below(4) {
            0 => Conductor::End { at: a },
            1 => Conductor::Segment {
                a,
                b: Point { x: b.x, y: a.y },
            },
            2 => Conductor::Segment {
                a,
                b: Point { x: a.x, y: b.y },
            },
            _ => Conductor::Segment { a, b },
        }
    }

    fn drawing(&mut self) -> [Conductor; 25] {
        let nowhere = Point { x: 0, y: 0 };
        let mut drawing = [Conductor::End { at: nowhere }; 25];
        for conductor in &mut drawing {
            *conductor = self.conductor();
        }
        drawing
    }
}

fn key(place: u32) -> Key
    ensures { result ≡ key_at place }
{
    Key {
        id: place,
        place: 0,
    }
}

/// The index of the conductors by their places.
fn index_of(alloc: Global, drawing: &[Conductor; 25]) -> Result<TouchIndex, AllocError>
    ensures first { IfOk result (λ index. HasFirst index.conductors 25) }
{
    let mut index = TouchIndex::new(alloc);
    for place in 0..25 {
        index.insert(key(place), Sealed::new(drawing[place as usize]))?;
    }
    Ok(index)
}

/// The keys of the other conductors, but for the one that is gone, that touch the one at a place.
fn touching(
    alloc: Global,
    drawing: &[Conductor; 25],
    gone: u32,
    at: u32,
) -> Result<Vec<Key>, AllocError>
    requires { at < 25 }
{
    let mut keys = Vec::new(alloc);
    for place in 0..25 {
        let touch = touches(&drawing[at as usize], &drawing[place as usize]);
        if place != at && place != gone && touch {
            keys.push(key(place))?;
        }
    }
    Ok(keys)
}

/// Whether a conductor touches one of those that are marked.
fn touches_marked(drawing: &[Conductor; 25], marked: &[bool; 25], at: u32) -> bool
    requires { at < 25 }
{
    for place in 0..25 {
        if marked[place] && touches(&drawing[at as usize], &drawing[place]) {
            return true;
        }
    }
    false
}

/// Marks those that touch a marked one, but for the one at a place and the one that is gone, and
/// tells whether there were some.
fn mark_next(drawing: &[Conductor; 25], marked: &mut [bool; 25], at: u32, gone: u32) -> bool {
    let mut is_more = false;
    for place in 0..25 {
        let is_open = place != at && place != gone && !marked[place as usize];
        if is_open && touches_marked(drawing, marked, place) {
            marked[place as usize] = true;
            is_more = true;
        }
    }
    is_more
}

/// Whether all of some keys are wanted, and a chain of conductors that touch, none of them the one
/// at a place, leads from one of them to each that is wanted.
fn are_spanning(
    drawing: &[Conductor; 25],
    some: &[Key],
    wanted: &[Key],
    at: u32,
    gone: u32,
) -> bool {
    let mut marked = [false; 25];
    for key in some {
        if !wanted.contains(key) || key.id >= 25 {
            return false;
        }
        marked[key.id as usize] = true;
    }
    for _ in 0..25 {
        if !mark_next(drawing, &mut marked, at, gone) {
            break;
        }
    }
    for key in wanted {
        if key.id >= 25 || !marked[key.id as usize] {
            return false;
        }
    }
    true
}

/// The first place, but for the one that is gone, whose neighbours are not those that touch, or not
/// spanned by some of them.
fn first_wrong(
    alloc: Global,
    index: &mut TouchIndex,
    drawing: &[Conductor; 25],
    gone: u32,
) -> Result<Option<u32>, AllocError>
    requires { HasOthers index.old.conductors 25 gone }
{
    for place in 0..25 {
        if place != gone {
            let wanted = touching(alloc, drawing, gone, place)?;
            let found = index.neighbours(key(place))?;
            let some = index.spanning_neighbours(key(place))?;
            if found != wanted || !are_spanning(drawing, &some, &wanted, place, gone) {
                return Ok(Some(place));
            }
        }
    }
    Ok(None)
}

/// The first place of the next drawing, without one of its conductors, whose neighbours are wrong.
fn wrong_in_next(alloc: Global, draws: &mut Draws) -> Result<Option<u32>, AllocError> {
    let drawing = draws.drawing();
    let mut index = index_of(alloc, &drawing)?;
    let gone = draws.below(25);
    index.remove(key(gone));
    first_wrong(alloc, &mut index, &drawing, gone)
}

/// The first of so many drawings, from 0, in which the index finds others than those that touch,
/// and the place there; or `none`.
pub fn first_wrong_drawing(alloc: Global, cells: &[&str]) -> Result<String, CaseFault> {
    let mut draws = Draws { last: 1 };
    for number in 0..number_of(cell(cells, 0))? {
        if let Some(place) = wrong_in_next(alloc, &mut draws)? {
            return Ok(format!(in alloc; "{number} {place}")?);
        }
    }
    Ok(String::from_str(alloc, "none")?)
}
