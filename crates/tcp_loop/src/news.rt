//! The lines of the log.

ghost use Rattle.std.specs.Prelude.{◌≤◌, ◌<◌, IfSome};

use crate::counters::Counters;
use std::alloc::{AllocError, Global};
use std::collections::VecDeque;
use std::marker::Model;

/// How many lines wait to be printed, at most: more are dropped, and counted.
const MOST_LINES: usize = 256;

/// How many bytes a line has, at most.
const MOST_BYTES: usize = 512;

/// How much is told: failures alone; connections too; or also each round's commands.
#[derive(Clone, Copy, Debug, PartialEq, Eq, PartialOrd, Ord)]
pub enum Level {
    Failures,
    Connections,
    Commands,
}

/// Why a connection was closed.
#[derive(Clone, Copy, Debug, PartialEq, Eq)]
pub(crate) enum Ending {
    /// Its host closed it, or it broke.
    Lost,
    /// An error or its controller ended it, and all was sent.
    Ended,
    /// Its controller has ended, or its host was waited for too long.
    GivenUp,
}

/// A line.
#[derive(Clone, Copy)]
pub(crate) enum News {
    Begun { place: usize },
    Refused,
    Closed { place: usize, why: Ending },
    Did { place: usize, commands: u64 },
    NotFolded,
    CannotWrite { cause: bool },
    NoMemory,
    Counted { counters: Counters },
    Dropped { lines: u64 },
}

/// Lines that wait to be printed.
#[derive(Drop)]
pub(crate) struct Lines {
    level: Level,
    waiting: VecDeque<News>,
    dropped: u64,
    /// The line that is printed now.
    line: Vec<u8>,
}

// How many are to be printed, with the one that says how many were dropped.
impl Model for Lines {
    ghost use Rattle.std.specs.Prelude.{ℕ, ◌≤◌, ◌+◌, ◌==◌, if◌then◌else◌};
    ghost use Rattle.std.specs.VecDeque.{deque_len};

    ghost Value = { ℕ };

    ghost view = { λ l. deque_len l.waiting + (if l.dropped == 0 then 0 else 1) };

    ghost invariant = { λ l. deque_len l.waiting ≤ 256 };
}

impl Lines {
    pub(crate) fn new(alloc: Global, level: Level) -> Result<Lines, AllocError> {
        Ok(Lines {
            level,
            waiting: VecDeque::with_capacity(alloc, MOST_LINES)?,
            dropped: 0,
            line: Vec::with_capacity(alloc, MOST_BYTES)?,
        })
    }

    /// Has a line printed, where so much is told.
    pub(crate) fn tell(&mut self, level: Level, news: News) {
        if self.level < level {
            return;
        }
        if self.waiting.len() >= MOST_LINES || self.waiting.push_back(news).is_err() {
            self.dropped = self.dropped.saturating_add(1);
        }
    }

    /// Makes the next line, and says whether the failure of the last operation is its cause; `None` where there is none.
    pub(crate) fn next(&mut self) -> Option<bool>
        ensures few { self.old ≤ 257 }
        ensures fewer { IfSome result (λ cause. self.new < self.old) }
    {
        let news = self.next_news()?;
        self.line.clear();
        write_news(&mut self.line, news);
        Some(matches!(news, News::CannotWrite { cause: true }))
    }

    /// What is told next.
    fn next_news(&mut self) -> Option<News>
        ensures few { self.old ≤ 257 }
        ensures fewer { IfSome result (λ news. self.new < self.old) }
    {
        if let Some(news) = self.waiting.pop_front() {
            return Some(news);
        }
        if self.dropped == 0 {
            return None;
        }
        let lines = self.dropped;
        self.dropped = 0;
        Some(News::Dropped { lines })
    }

    /// The line that is printed now.
    pub(crate) fn line(&self) -> &[u8] {
        self.line.as_slice()
    }
}

/// Adds text to a line, as far as there is room.
fn add_text(line: &mut Vec<u8>, text: &str) {
    let _ = line.extend_from_slice(text.as_bytes());
}

/// Adds a number.
fn add_number(line: &mut Vec<u8>, number: u64) {
    let mut digits = [b'0'; 20];
    let mut rest = number;
    let mut first = 19;
    for place in 0..20 {
        digits[19 - place] = b'0' + (rest % 10) as u8;
        if rest % 10 != 0 {
            first = 19 - place;
        }
        rest /= 10;
    }
    let _ = line.extend_from_slice(&digits[first..]);
}

/// Adds a connection.
fn add_place(line: &mut Vec<u8>, place: usize, text: &str) {
    add_text(line, "connection ");
    add_number(line, place as u64);
    add_text(line, text);
}

/// Adds a counter with its name.
fn add_counter(line: &mut Vec<u8>, name: &str, count: u64) {
    add_text(line, name);
    add_number(line, count);
}

/// A line of text, in which byte 1 stands for the file's name, and byte 2 for why the last operation for it failed that did.
fn write_news(line: &mut Vec<u8>, news: News) {
    match news {
        News::Begun { place } => add_place(line, place, " begins"),
        News::Refused => add_text(line, "a connection is refused: all places are taken"),
        News::Closed { place, why } => add_place(line, place, ending_words(why)),
        News::Did { place, commands } => {
            add_place(line, place, ": commands: ");
            add_number(line, commands);
        }
        News::NotFolded => add_text(line, "cannot fold \x01: \x02; its journal goes on growing"),
        News::CannotWrite { cause: true } => add_text(line, "cannot write \x01: \x02"),
        News::CannotWrite { cause: false } => add_text(
            line,
            "cannot write \x01: memory is wanting",
        ),
        News::NoMemory => add_text(line, "memory is wanting"),
        News::Counted { counters } => write_counters(line, &counters),
        News::Dropped { lines } => add_counter(line, "lines that were not printed: ", lines),
    }
}

fn ending_words(why: Ending) -> &'static str {
    match why {
        Ending::Lost => " is closed by its host",
        Ending::Ended => " ends",
        Ending::GivenUp => " is cut off",
    }
}

fn write_counters(line: &mut Vec<u8>, counters: &Counters) {
    add_counter(line, "connections: ", counters.taken);
    add_counter(line, ", refused: ", counters.refused);
    add_counter(line, ", commands: ", counters.commands);
    add_counter(line, ", turns: ", counters.turns);
    add_counter(line, ", bytes that came: ", counters.came);
    add_counter(line, ", sent: ", counters.sent);
    add_counter(line, ", commits: ", counters.commits);
    add_counter(line, ", rounds: ", counters.rounds);
}
