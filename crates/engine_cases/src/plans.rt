// Plans: a turn for each call.
use case_tables::{CaseFault, number_of};
use engine_core::{Body, Event};
use memory_engine::Turn;
use std::alloc::{AllocError, Global};

/// The row that a word is.
pub fn body_of(alloc: Global, word: &str) -> Result<Body, AllocError> {
    let mut bytes = Vec::new(alloc);
    bytes.extend_from_slice(word.as_bytes())?;
    Ok(Body::new(bytes))
}

/// Another one puts a row.
fn wrote(alloc: Global, words: &str) -> Result<Event, CaseFault> {
    let (serial, word) = words.split_once(' ').ok_or(CaseFault::BadCase)?;
    Ok(Event::Wrote {
        serial: number_of(serial)?,
        body: body_of(alloc, word)?,
    })
}

fn late(words: &str) -> Result<Event, CaseFault> {
    let place = number_of(words)? as usize;
    Ok(Event::Late { place })
}

fn event_of(alloc: Global, words: &str) -> Result<Event, CaseFault> {
    let (word, rest) = words.split_once(' ').unwrap_or((words, ""));
    match word {
        "late" => late(rest),
        "taken" => Ok(Event::Taken),
        "wrote" => wrote(alloc, rest),
        "other" => Ok(Event::Other),
        _ => Err(CaseFault::BadCase),
    }
}

fn events_of(alloc: Global, words: &str) -> Result<Vec<Event>, CaseFault> {
    let mut events = Vec::new(alloc);
    if words.is_empty() {
        return Ok(events);
    }
    for one in words.split(", ") {
        events.push(event_of(alloc, one)?)?;
    }
    Ok(events)
}

fn turn_of(alloc: Global, line: &str) -> Result<Turn, CaseFault> {
    let (word, rest) = line.split_once(": ").unwrap_or((line, ""));
    let is_answered = match word {
        "answered" => true,
        "unanswered" => false,
        _ => return Err(CaseFault::BadCase),
    };
    Ok(Turn {
        events: events_of(alloc, rest)?,
        is_answered,
    })
}

/// The turns of a plan, the first of them last.
pub fn turns_of(alloc: Global, plan: &str) -> Result<Vec<Turn>, CaseFault> {
    let mut turns = Vec::new(alloc);
    for line in plan.lines() {
        turns.insert(0, turn_of(alloc, line)?)?;
    }
    Ok(turns)
}
