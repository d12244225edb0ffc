// What a connection sends, and when: the requests of a file, and before some of them a line
// `after NAME N`. What follows it waits until the connection NAME has N replies, or the call N of
// the keeper has begun.
ghost use Rattle.std.specs.Prelude.{◌≤◌, length};

use crate::progress::Milestone;
use case_tables::{CaseFault, TableFiles, number_of, text_in};
use http_lines::put_request;
use std::alloc::{AllocError, Global};
use std::mem;

/// What has always come.
const AT_ONCE: Milestone = Milestone { place: 0, steps: 0 };

/// A piece of what a connection sends.
#[derive(Drop)]
struct Piece {
    after: Milestone,
    bytes: Vec<u8>,
}

/// What a connection sends: pieces, each when its time has come.
#[derive(Drop)]
pub struct Script {
    pieces: Vec<Piece>,
    current: usize,
    taken: usize,
}

/// Copies as many bytes as fit, and answers how many.
fn copy_front(from: &[u8], room: &mut [u8]) -> usize
    ensures { result ≤ length room.new }
{
    let count = room.len().min(from.len());
    let (front, _) = room.split_at_mut(count);
    front.copy_from_slice(&from[..count]);
    count
}

impl Script {
    /// When the next bytes come. `None` where there are none.
    pub fn milestone(&self) -> Option<Milestone> {
        let piece = self.pieces.get(self.current)?;
        Some(piece.after)
    }

    /// Takes bytes of the current piece, and passes to the next one behind its end. It takes none
    /// into room that is not empty only behind the last.
    pub fn take_bytes(&mut self, room: &mut [u8]) -> usize
        ensures { result ≤ length room.new }
    {
        let Some(piece) = self.pieces.get(self.current) else {
            return 0;
        };
        let left = piece.bytes.get(self.taken..).unwrap_or(&[]);
        let count = copy_front(left, room);
        let is_whole = left.len() <= count;
        self.pass(count, is_whole);
        count
    }

    /// Passes taken bytes, or a whole piece.
    fn pass(&mut self, count: usize, is_whole: bool) {
        if is_whole {
            self.current = self.current.saturating_add(1);
            self.taken = 0;
        } else {
            self.taken = self.taken.saturating_add(count);
        }
    }
}

/// How many connections a word names, and the file of each: `900*ann`, or `ann` alone.
pub fn counted_name(word: &str) -> Result<(usize, &str), CaseFault> {
    match word.split_once('*') {
        Some((count, name)) => Ok((number_of(count)? as usize, name)),
        None => Ok((1, word)),
    }
}

/// How many connections are named.
pub fn name_count(names: &str) -> Result<usize, CaseFault> {
    let mut all = 0usize;
    for word in names.split_whitespace() {
        let (count, _) = counted_name(word)?;
        all = all.saturating_add(count);
    }
    Ok(all)
}

/// The place of a connection among those that are named; `keeper` stands behind them.
fn place_of(names: &str, wanted: &str) -> Result<usize, CaseFault> {
    let mut place = 0usize;
    for word in names.split_whitespace() {
        let (count, name) = counted_name(word)?;
        if name == wanted {
            return Ok(place);
        }
        place = place.saturating_add(count);
    }
    if wanted == "keeper" {
        return Ok(place);
    }
    Err(CaseFault::BadCase)
}

/// What `NAME N` waits for, among these connections.
pub fn milestone_of(names: &str, words: &str) -> Result<Milestone, CaseFault> {
    let (name, steps) = words.split_once(' ').ok_or(CaseFault::BadCase)?;
    Ok(Milestone {
        place: place_of(names, name)?,
        steps: number_of(steps)?,
    })
}

/// A script of which lines are being read.
#[derive(Drop)]
struct OpenScript {
    pieces: Vec<Piece>,
    after: Milestone,
    text: String,
}

impl OpenScript {
    /// Ends a piece, and begins one that comes then. A piece without bytes goes away.
    fn close(&mut self, alloc: Global, then: Milestone) -> Result<(), AllocError> {
        let after = mem::replace(&mut self.after, then);
        let text = mem::replace(&mut self.text, String::new(alloc));
        if !text.is_empty() {
            let bytes = text.into_bytes();
            self.pieces.push(Piece { after, bytes })?;
        }
        Ok(())
    }

    fn take(
        &mut self,
        alloc: Global,
        names: &str,
        line: &str,
        files: &TableFiles,
    ) -> Result<(), CaseFault> {
        match line.strip_prefix("after ") {
            Some(words) => Ok(self.close(alloc, milestone_of(names, words)?)?),
            None => put_request(alloc, &mut self.text, line, files),
        }
    }
}

/// What the connection of a file sends, among connections of these names.
pub fn script_of(
    alloc: Global,
    names: &str,
    file: &str,
    files: &TableFiles,
) -> Result<Script, CaseFault> {
    let lines = text_in(alloc, files.find(file)?)?;
    let mut script = OpenScript {
        pieces: Vec::new(alloc),
        after: AT_ONCE,
        text: String::new(alloc),
    };
    for line in lines.as_str().lines() {
        script.take(alloc, names, line, files)?;
    }
    script.close(alloc, AT_ONCE)?;
    let OpenScript {
        pieces,
        after: _,
        text: _,
    } = script;
    Ok(Script {
        pieces,
        current: 0,
        taken: 0,
    })
}
