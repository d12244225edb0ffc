// How far the connections of a serving and the calls of its keeper have come. They tell it each
// other, so that one can wait for another.
use std::alloc::{AllocError, Global};
use std::sync::{Mutex, Wait};
use std::thread;
use std::time::{Clock, Duration};

/// How often a wait looks at most.
const MOST_TURNS: u32 = 10_000;

/// How long a wait pauses after each look.
const PAUSE_MILLISECONDS: u64 = 1;

/// How far something has to come.
#[derive(Clone, Copy)]
pub struct Milestone {
    /// Whose steps count: the place of a connection, from 0, or that of the keeper behind them.
    pub place: usize,
    /// How many steps it has to have made.
    pub steps: u32,
}

/// What one connection has written. A reply that begins is a step; of a keeper, a call.
#[derive(Drop)]
struct Trace {
    written: Vec<u8>,
    steps: u32,
}

impl Trace {
    fn step(&mut self) {
        self.steps = self.steps.saturating_add(1);
    }

    fn put(&mut self, piece: &[u8]) -> Result<(), AllocError> {
        self.written.extend_from_slice(piece)?;
        if piece.starts_with(b"HTTP/") {
            self.step();
        }
        Ok(())
    }
}

/// What all connections have written, how far the keeper is, and which texts gate and keepers were
/// given.
#[derive(Drop)]
pub struct Traces {
    list: Vec<Trace>,
    given: String,
}

impl Traces {
    /// Nothing yet, at so many places.
    pub fn new(alloc: Global, places: usize) -> Result<Traces, AllocError> {
        let mut list = Vec::new(alloc);
        for _ in 0..places {
            list.push(Trace {
                written: Vec::new(alloc),
                steps: 0,
            })?;
        }
        Ok(Traces {
            list,
            given: String::new(alloc),
        })
    }

    /// Notes who was given a text, and the text.
    fn note(&mut self, who: &str, text: &str) -> Result<(), AllocError> {
        let between = if self.given.is_empty() { "" } else { ", " };
        write!(self.given, "{between}{who} {text}")
    }

    /// Counts a step.
    fn step(&mut self, place: usize) {
        if let Some(trace) = self.list.get_mut(place) {
            trace.step();
        }
    }

    /// Puts a piece of what a connection writes.
    fn put(&mut self, place: usize, piece: &[u8]) -> Result<(), AllocError> {
        match self.list.get_mut(place) {
            Some(trace) => trace.put(piece),
            None => Ok(()),
        }
    }

    /// A copy of who was given which text.
    fn given(&self, alloc: Global) -> Result<String, AllocError> {
        String::from_str(alloc, self.given.as_str())
    }

    fn has_come(&self, wanted: Milestone) -> bool {
        match self.list.get(wanted.place) {
            Some(trace) => wanted.steps <= trace.steps,
            None => false,
        }
    }

    /// A copy of what a connection has written.
    fn written(&self, alloc: Global, place: usize) -> Result<Vec<u8>, AllocError> {
        match self.list.get(place) {
            Some(trace) => trace.written.as_slice().to_vec(alloc),
            None => Ok(Vec::new(alloc)),
        }
    }
}

/// How far all have come, for any of them.
#[derive(Drop)]
pub struct Progress<'a, W: Wait + Clock> {
    rt: &'a W,
    traces: &'a Mutex<Traces>,
}

impl<'a, W: Wait + Clock> Progress<'a, W> {
    /// The progress that these traces have. `rt` is what it waits by.
    pub fn new(rt: &'a W, traces: &'a Mutex<Traces>) -> Progress<'a, W> {
        Progress { rt, traces }
    }

    /// Counts a step.
    pub fn step(&self, place: usize) {
        self.traces.lock(self.rt).step(place)
    }

    /// Puts a piece of what a connection writes. One that begins a reply is a step of it.
    pub fn put(&self, place: usize, piece: &[u8]) -> Result<(), AllocError> {
        self.traces.lock(self.rt).put(place, piece)
    }

    /// A copy of what a connection has written.
    pub fn written(&self, alloc: Global, place: usize) -> Result<Vec<u8>, AllocError> {
        self.traces.lock(self.rt).written(alloc, place)
    }

    /// Notes who was given a text, and the text.
    pub fn note(&self, who: &str, text: &str) -> Result<(), AllocError> {
        self.traces.lock(self.rt).note(who, text)
    }

    /// Who was given which text, in the order in which they were.
    pub fn given(&self, alloc: Global) -> Result<String, AllocError> {
        self.traces.lock(self.rt).given(alloc)
    }

    fn has_come(&self, wanted: Milestone) -> bool {
        self.traces.lock(self.rt).has_come(wanted)
    }

    /// Waits until so many steps are made, and says whether they were. It looks 10,000 times at
    /// most, and pauses for a millisecond after each look.
    pub fn wait_for(&self, wanted: Milestone) -> bool {
        for _ in 0..MOST_TURNS {
            if self.has_come(wanted) {
                return true;
            }
            thread::sleep(self.rt, Duration::from_millis(PAUSE_MILLISECONDS));
        }
        false
    }
}
