// How long a client may take.
use std::time::Duration;

/// The slowest client: so many bytes a second.
const LEAST_RATE: u64 = 64 * 1024;

/// How long a client may be silent between two requests.
const LONGEST_SILENCE_SECONDS: u64 = 60;

/// How long a head may take from its first byte.
const LONGEST_HEAD_SECONDS: u64 = 20;

/// How long a body or a reply may take, and its bytes by the least rate besides.
const LONGEST_BODY_SECONDS: u64 = 60;

/// How long the client of a connection that was ended may go on.
const LONGEST_END_SECONDS: u64 = 2;

/// What is waited for.
#[derive(Clone, Copy, Debug, PartialEq, Eq)]
pub enum Part {
    /// The first byte of a request.
    Silence,
    /// The rest of a head.
    Head,
    /// The rest of a body, or of a reply.
    Body,
    /// The client's end.
    End,
}

/// Something that is waited for, since it began.
#[derive(Clone, Copy, Debug)]
pub struct Patience {
    part: Part,
    since: Duration,
    moved: u64,
}

/// How long a part may take, without its bytes.
fn longest(part: Part) -> Duration {
    match part {
        Part::Silence => Duration::from_secs(LONGEST_SILENCE_SECONDS),
        Part::Head => Duration::from_secs(LONGEST_HEAD_SECONDS),
        Part::Body => Duration::from_secs(LONGEST_BODY_SECONDS),
        Part::End => Duration::from_secs(LONGEST_END_SECONDS),
    }
}

impl Patience {
    /// It begins now.
    pub fn new(part: Part, now: Duration) -> Patience {
        Patience {
            part,
            since: now,
            moved: 0,
        }
    }

    /// The same where it is this part that is waited for; else this part begins now.
    pub fn with(self, part: Part, now: Duration) -> Patience {
        if self.part == part {
            return self;
        }
        Patience::new(part, now)
    }

    /// So many bytes moved.
    pub fn moved(&mut self, bytes: usize) {
        self.moved = self.moved.saturating_add(bytes as u64);
    }

    /// Whether the client has taken too long.
    pub fn is_over(&self, now: Duration) -> bool {
        let rate = Duration::from_secs(self.moved / LEAST_RATE);
        now.saturating_sub(self.since) > longest(self.part).saturating_add(rate)
    }
}
