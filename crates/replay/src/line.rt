//! The line of an answer: the number and the index of a refusal, or 0 and 0 and then the values.
use crate::case::Fault;
use crate::lent::{Element, Room, Rows};
use refusal::Refusal;
use rows::{Origin, ROW_WORDS};
use std::alloc::{AllocError, Global};
use std::fmt::Display;

/// The line so far, and whether what is to hold of the answer and of the lent slices doesn't.
#[derive(Drop)]
pub struct Line {
    text: String,
    touched: bool,
}

/// What a call answers, as values of its line.
pub trait Values: Copy {
    fn say(self, line: &mut Line) -> Result<(), Fault>;
}

impl Values for u64 {
    fn say(self, line: &mut Line) -> Result<(), Fault> {
        line.value(self)
    }
}

impl Values for i64 {
    fn say(self, line: &mut Line) -> Result<(), Fault> {
        line.value(self)
    }
}

impl Values for usize {
    fn say(self, line: &mut Line) -> Result<(), Fault> {
        line.value(self)
    }
}

impl Values for bool {
    fn say(self, line: &mut Line) -> Result<(), Fault> {
        line.value(self as u64)
    }
}

impl Line {
    pub fn new(alloc: Global) -> Line {
        Line {
            text: String::new(alloc),
            touched: false,
        }
    }

    /// A value, after a space unless it is the first.
    pub fn value<T: Display + Drop>(&mut self, x: T) -> Result<(), Fault> {
        let gap = if self.text.is_empty() { "" } else { " " };
        write!(self.text, "{gap}{x}")?;
        Ok(())
    }

    /// What a call answers, or why it refuses.
    pub fn answer<T: Values>(&mut self, answer: Result<T, Refusal>) -> Result<(), Fault> {
        match answer {
            Ok(values) => {
                self.value(0)?;
                self.value(0)?;
                values.say(self)
            }
            Err(refusal) => {
                self.value(refusal.reason.number())?;
                self.value(refusal.index)
            }
        }
    }

    /// The first n elements of a lent slice. What comes after them is to be as it was lent.
    pub fn written<T: Element + Display>(&mut self, room: &Room<T>, n: usize) -> Result<(), Fault> {
        for &x in room.held().iter().take(n) {
            self.value(x)?;
        }
        self.held_to(room.is_kept(n));
        Ok(())
    }

    /// The first n bytes of a lent slice, two hex digits each in one word, or no word where n is 0. What
    /// comes after them is to be as it was lent.
    pub fn bytes(&mut self, room: &Room<u8>, n: usize) -> Result<(), Fault> {
        if n != 0 {
            self.text.push(' ')?;
        }
        for &x in room.held().iter().take(n) {
            write!(self.text, "{x:02x}")?;
        }
        self.held_to(room.is_kept(n));
        Ok(())
    }

    /// How many rows were written, and the rows; a refusal writes none.
    pub fn rows(&mut self, answer: Result<usize, Refusal>, rows: &Rows) -> Result<(), Fault> {
        self.answer(answer)?;
        let n = answer.unwrap_or(0);
        self.written(&rows.words, n.saturating_mul(ROW_WORDS))?;
        self.written(&rows.shifts, n)
    }

    /// The first n origins of a lent slice: source, frame and flag of each, and then the shifts. What
    /// comes after them is to be as it was lent.
    pub fn origins(&mut self, room: &Room<Origin>, n: usize) -> Result<(), Fault> {
        for origin in room.held().iter().take(n) {
            self.value(origin.source)?;
            self.value(origin.frame)?;
            self.value(origin.flag)?;
        }
        for origin in room.held().iter().take(n) {
            self.value(origin.shift)?;
        }
        self.held_to(room.is_kept(n));
        Ok(())
    }

    /// A working slice is to hold nothing but 0.
    pub fn cleared<T: Element + Default>(&mut self, room: &Room<T>) {
        self.held_to(room.held().iter().all(|x| *x == T::default()));
    }

    /// What is to hold of an answer; where it doesn't, the line says so.
    pub fn held_to(&mut self, holds: bool) {
        self.touched |= !holds;
    }

    /// The whole line.
    pub fn ended(self) -> Result<String, AllocError> {
        let Line { mut text, touched } = self;
        if touched {
            text.push_str(" touched")?;
        }
        Ok(text)
    }
}
