//! What a C caller is told of an answer (RULES 2.6): the number, the words that are lent for the
//! value, and the index. Lent words may be unset, so that none is read: on a refusal they are left
//! alone.
#![tactic(auto)]

pub mod several;
pub mod texts;

ghost use Rattle.std.specs.Prelude.{◌≡◌, if◌then◌else◌};
ghost use Rattle.refusal.specs.Reasons.{number};
ghost use Rattle.told.specs.Told.{told, unsaid};

use refusal::Refusal;

/// A value that is told as one word.
pub trait Word {
    /// The type of the word that is lent for it.
    type Word: Copy;

    ghost word: { Self → Self.Word };

    /// The word that is told of it.
    fn word(self) -> Self::Word
        ensures { result ≡ word self };
}

impl Word for u64 {
    type Word = u64;

    ghost word = { λ n. n };

    fn word(self) -> u64 {
        self
    }
}

impl Word for usize {
    type Word = u64;

    ghost word = { λ n. n };

    fn word(self) -> u64 {
        self as u64
    }
}

impl Word for i64 {
    type Word = i64;

    ghost word = { λ z. z };

    fn word(self) -> i64 {
        self
    }
}

// 1 for yes, 0 for no.
impl Word for bool {
    type Word = u64;

    ghost word = { λ yes. if yes then 1 else 0 };

    fn word(self) -> u64 {
        self as u64
    }
}

// Tells that nothing is refused: 0, at 0.
pub(crate) fn accepted(index: &mut u64) -> u64
    ensures { (result ≡ 0) × (index.new ≡ 0) }
{
    *index = 0;
    0
}

// Tells a refusal: its number, and its index.
pub(crate) fn refused(refusal: Refusal, index: &mut u64) -> u64
    ensures { (result ≡ number refusal.reason) × (index.new ≡ refusal.index) }
{
    *index = refusal.index as u64;
    refusal.reason.number()
}

/// Tells an answer of one word: writes it to `word` and 0 to `index`, and answers 0; or leaves
/// `word`, writes the refusal's index, and answers its number.
pub fn tell<T: Word + Copy>(answer: Result<T, Refusal>, word: &mut T::Word, index: &mut u64) -> u64
    ensures { (result, word.new, index.new) ≡ told T.word answer word.old }
{
    match answer {
        Ok(value) => {
            *word = value.word();
            accepted(index)
        }
        Err(refusal) => refused(refusal, index),
    }
}

/// Tells a refusal, or that there is none, in the same way, and nothing of the value.
pub fn tell_refusal<T: Copy>(answer: Result<T, Refusal>, index: &mut u64) -> u64
    ensures { (result, tt, index.new) ≡ told unsaid answer tt }
{
    match answer {
        Ok(_) => accepted(index),
        Err(refusal) => refused(refusal, index),
    }
}
