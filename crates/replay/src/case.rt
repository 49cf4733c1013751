//! A case is a line of words: the name of a call, and then its arguments (compare/README.md has
//! their forms).
use std::alloc::{AllocError, AllocFailed, Global};
use steps::Words;

/// Why a case has no answer.
#[derive(Clone, Copy)]
pub enum Fault {
    // The line is no case.
    Malformed,
    OutOfMemory,
}

impl From<AllocError> for Fault {
    fn from(_error: AllocError) -> Fault {
        Fault::OutOfMemory
    }
}

impl<T: Drop> From<AllocFailed<T>> for Fault {
    fn from(_error: AllocFailed<T>) -> Fault {
        Fault::OutOfMemory
    }
}

/// What of a line isn't read yet. Words are bytes, with spaces, tabs or carriage returns between
/// them.
#[derive(Drop)]
pub struct Case<'a> {
    words: Words<'a>,
    alloc: Global,
}

/// What is read from the next words of a case.
pub trait Argument: Drop {
    fn read(case: &mut Case<'_>) -> Result<Self, Fault>;
}

impl<'a> Case<'a> {
    pub fn new(alloc: Global, text: &'a [u8]) -> Case<'a> {
        Case {
            words: Words { rest: text },
            alloc,
        }
    }

    pub fn alloc(&self) -> Global {
        self.alloc
    }

    /// The next word, empty where there is none.
    pub fn word(&mut self) -> &'a [u8] {
        self.words.next()
    }

    /// The next argument.
    pub fn take<T: Argument>(&mut self) -> Result<T, Fault> {
        T::read(self)
    }

    /// All words are read.
    pub fn end(&mut self) -> Result<(), Fault> {
        if self.word().is_empty() {
            Ok(())
        } else {
            Err(Fault::Malformed)
        }
    }
}

impl Argument for u64 {
    fn read(case: &mut Case<'_>) -> Result<u64, Fault> {
        steps::number_of(case.word()).or(Err(Fault::Malformed))
    }
}

impl Argument for i64 {
    fn read(case: &mut Case<'_>) -> Result<i64, Fault> {
        steps::integer_of(case.word()).or(Err(Fault::Malformed))
    }
}

impl Argument for u32 {
    fn read(case: &mut Case<'_>) -> Result<u32, Fault> {
        let n: u64 = case.take()?;
        u32::try_from(n).or(Err(Fault::Malformed))
    }
}

impl Argument for usize {
    fn read(case: &mut Case<'_>) -> Result<usize, Fault> {
        let n: u64 = case.take()?;
        Ok(n as usize)
    }
}

impl Argument for bool {
    fn read(case: &mut Case<'_>) -> Result<bool, Fault> {
        let n: u64 = case.take()?;
        match n {
            0 => Ok(false),
            1 => Ok(true),
            _ => Err(Fault::Malformed),
        }
    }
}

// A list: how many elements, and then each. Nothing is reserved by the count alone: its words may
// not be there.
impl<T: Argument> Argument for Vec<T> {
    fn read(case: &mut Case<'_>) -> Result<Vec<T>, Fault> {
        let n: u64 = case.take()?;
        let mut list = Vec::new(case.alloc());
        for _ in 0..n {
            list.push(case.take()?)?;
        }
        Ok(list)
    }
}

/// Bytes: how many, and then, unless that is 0, one word of two hex digits each, no letter of which
/// is upper-case.
#[derive(Drop)]
pub struct Bytes(pub Vec<u8>);

impl Argument for Bytes {
    fn read(case: &mut Case<'_>) -> Result<Bytes, Fault> {
        let n: usize = case.take()?;
        if n == 0 {
            return Ok(Bytes(Vec::new(case.alloc())));
        }
        let word = case.word();
        if word.iter().any(|digit| digit.is_ascii_uppercase()) {
            return Err(Fault::Malformed);
        }
        match hex::decode(case.alloc(), word) {
            Ok(bytes) if bytes.len() == n => Ok(Bytes(bytes)),
            Ok(_) => Err(Fault::Malformed),
            Err(hex::FromHexError::OutOfMemory) => Err(Fault::OutOfMemory),
            Err(_) => Err(Fault::Malformed),
        }
    }
}
