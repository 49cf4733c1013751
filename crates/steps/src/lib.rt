//! One line of text as one step on a frame map: `row`, `cut`, `join`, `merge` or `origin` with its
//! numbers. `#` begins a comment. Words and numbers are public: other programs read their lines
//! with them.
#![tactic(auto)]

ghost use Rattle.std.specs.Prelude.{◌≡◌, length, ◌≤◌, ◌<◌, ◌+◌, ◌*◌, ◌^◌, IsTrue, SomeIff};
ghost use Rattle.std.specs.Char.{is_ascii_digit, digit_value};
ghost use Rattle.std.specs.List.{list_all, prefix_len};
ghost use Rattle.std.specs.Str.Parse.{digits_value};
ghost use Rattle.steps.specs.Words.{passing, code_of, trimmed, word_of, rest_of};
ghost use Rattle.steps.specs.Numbers.{number_in, signed_as, integer_in};
ghost use Rattle.steps.specs.Steps.{end_in, shift_in, row_in, cut_in, origin_in, alone_in, step_in, step_of};

// Kinds of bytes: blanks between words, bytes of words, bytes before a comment.
#[derive(Clone, Copy)]
enum Kind {
    Blank,
    Word,
    Text,
}

/// Why a line is no step, or a word no number.
#[derive(Clone, Copy, Debug, PartialEq, Eq)]
pub enum Fault {
    /// The words are those of no step, or a word isn't a number.
    Unknown,
    /// A number that 64 bits don't hold.
    Large,
}

/// What a line asks for. Numbers are frames, and a source's number; a shift is in ticks
/// of its source's clock.
#[derive(Clone, Copy, Debug, PartialEq, Eq)]
pub enum Step {
    /// A row more: its source, the first of its source frames, how many, and its shift, if any.
    Row {
        source: u64,
        first: u64,
        count: u64,
        shift: Option<i64>,
    },
    /// The frames from start to end, without end.
    Cut {
        start: u64,
        end: u64,
    },
    /// Where a frame comes from.
    Origin(u64),
    /// The rows that follow are a second map, joined to the first.
    Join,
    /// One row of neighbours that continue.
    Merge,
}

/// The words of a line that aren't read yet. Spaces, tabs and carriage returns stand between words.
#[derive(Clone, Copy, Debug, PartialEq)]
pub struct Words<'a> {
    /// What is left of the line.
    pub rest: &'a [u8],
}

// Whether a byte is of a kind.
fn passes(kind: Kind, byte: u8) -> bool
    ensures { result ≡ passing kind byte }
{
    match kind {
        Kind::Blank => (byte == b' ') | (byte == b'\t') | (byte == b'\r'),
        Kind::Word => !((byte == b' ') | (byte == b'\t') | (byte == b'\r')),
        Kind::Text => byte != b'#',
    }
}

// How many of the first bytes are of a kind.
fn leading(text: &[u8], kind: Kind) -> usize
    ensures value { result ≡ prefix_len (passing kind) text.now }
    ensures bound { result ≤ length text.now }
{
    text.iter().take_while(|byte| passes(kind, **byte)).count()
}

// A line before its comment.
fn code(line: &[u8]) -> &[u8]
    ensures { result.now ≡ code_of line.now }
{
    let n = leading(line, Kind::Text);
    &line[..n]
}

// A line from its first word on.
fn trim(line: &[u8]) -> &[u8]
    ensures { result.now ≡ trimmed line.now }
{
    let n = leading(line, Kind::Blank);
    &line[n..]
}

// The first word of a line, empty where there is none.
fn word(line: &[u8]) -> &[u8]
    ensures { result.now ≡ word_of line.now }
{
    let trimmed = trim(line);
    let n = leading(trimmed, Kind::Word);
    &trimmed[..n]
}

// What comes after the first word.
fn rest(line: &[u8]) -> &[u8]
    ensures { result.now ≡ rest_of line.now }
{
    let trimmed = trim(line);
    let n = leading(trimmed, Kind::Word);
    &trimmed[n..]
}

// The number with a decimal digit more, where 64 bits hold it.
fn with_digit(number: u64, digit: u8) -> Option<u64>
    requires { IsTrue (is_ascii_digit digit) }
    ensures { SomeIff result (number * 10 + digit_value digit < 2 ^ 64)
        (number * 10 + digit_value digit) }
{
    number.checked_mul(10)?.checked_add(u64::from(digit - b'0'))
}

// The number of some decimal digits, where 64 bits hold it.
fn from_digits(digits: &[u8]) -> Option<u64>
    requires { IsTrue (list_all is_ascii_digit digits.now) }
    ensures { SomeIff result (digits_value 10 digits.now < 2 ^ 64) (digits_value 10 digits.now) }
{
    let mut number: u64 = 0;
    for digit in digits {
        number = with_digit(number, *digit)?;
    }
    Some(number)
}

// Whether all bytes are decimal digits.
fn are_digits(bytes: &[u8]) -> bool
    ensures { result ≡ list_all is_ascii_digit bytes.now }
{
    bytes.iter().all(|byte| byte.is_ascii_digit())
}

/// A word of decimal digits as a number of 64 bits.
pub fn number_of(word: &[u8]) -> Result<u64, Fault>
    ensures { result ≡ number_in word.now }
{
    if word.is_empty() | !are_digits(word) {
        return Err(Fault::Unknown);
    }
    from_digits(word).ok_or(Fault::Large)
}

// A number with a sign.
fn with_sign(negative: bool, number: Result<u64, Fault>) -> Result<i64, Fault>
    ensures { result ≡ signed_as negative number }
{
    signed::with_sign(negative, number?).ok_or(Fault::Large)
}

/// A word of decimal digits as a signed number of 64 bits, with `-` before it where it is below 0.
pub fn integer_of(word: &[u8]) -> Result<i64, Fault>
    ensures { result ≡ integer_in word.now }
{
    match word {
        [b'-', digits @ ..] => with_sign(true, number_of(digits)),
        _ => with_sign(false, number_of(word)),
    }
}

impl<'a> Words<'a> {
    /// The next word, empty where there is none.
    pub fn next(&mut self) -> &'a [u8]
        ensures word { result.now ≡ word_of self.old.rest.now }
        ensures rest { self.new.rest.now ≡ rest_of self.old.rest.now }
    {
        let next = word(self.rest);
        self.rest = rest(self.rest);
        next
    }

    // The next word as a number.
    fn number(&mut self) -> Result<u64, Fault>
        ensures value { result ≡ number_in (word_of self.old.rest.now) }
        ensures rest { self.new.rest.now ≡ rest_of self.old.rest.now }
    {
        number_of(self.next())
    }

    // The end of a line.
    fn end(self) -> Result<(), Fault>
        ensures { result ≡ end_in self.entry.rest.now }
    {
        if word(self.rest).is_empty() {
            Ok(())
        } else {
            Err(Fault::Unknown)
        }
    }

    // shift SHIFT, or nothing.
    fn shift(mut self) -> Result<Option<i64>, Fault>
        ensures { result ≡ shift_in self.entry.rest.now }
    {
        let next = self.next();
        if next.is_empty() {
            return Ok(None);
        }
        if next != b"shift".as_slice() {
            return Err(Fault::Unknown);
        }
        let shift = integer_of(self.next())?;
        self.end()?;
        Ok(Some(shift))
    }

    // row SOURCE FIRST COUNT, or row SOURCE FIRST COUNT shift SHIFT.
    fn row(mut self) -> Result<Step, Fault>
        ensures { result ≡ row_in self.entry.rest.now }
    {
        let source = self.number()?;
        let first = self.number()?;
        let count = self.number()?;
        let shift = self.shift()?;
        Ok(Step::Row {
            source,
            first,
            count,
            shift,
        })
    }

    // cut START END.
    fn cut(mut self) -> Result<Step, Fault>
        ensures { result ≡ cut_in self.entry.rest.now }
    {
        let start = self.number()?;
        let end = self.number()?;
        self.end()?;
        Ok(Step::Cut { start, end })
    }

    // origin FRAME.
    fn origin(mut self) -> Result<Step, Fault>
        ensures { result ≡ origin_in self.entry.rest.now }
    {
        let frame = self.number()?;
        self.end()?;
        Ok(Step::Origin(frame))
    }

    // A step without numbers.
    fn alone(self, step: Step) -> Result<Step, Fault>
        ensures { result ≡ alone_in step self.entry.rest.now }
    {
        self.end()?;
        Ok(step)
    }

    // The step that begins with a word.
    fn step(self, keyword: &[u8]) -> Result<Step, Fault>
        ensures { result ≡ step_in keyword.now self.entry.rest.now }
    {
        if keyword == b"row".as_slice() {
            return self.row();
        }
        if keyword == b"cut".as_slice() {
            return self.cut();
        }
        if keyword == b"origin".as_slice() {
            return self.origin();
        }
        if keyword == b"join".as_slice() {
            return self.alone(Step::Join);
        }
        if keyword == b"merge".as_slice() {
            return self.alone(Step::Merge);
        }
        Err(Fault::Unknown)
    }
}

/// What a line asks for, if anything: a line may be blank, or a comment alone.
pub fn parse(line: &[u8]) -> Result<Option<Step>, Fault>
    ensures { result ≡ step_of line.now }
{
    let mut words = Words { rest: code(line) };
    let keyword = words.next();
    if keyword.is_empty() {
        return Ok(None);
    }
    Ok(Some(words.step(keyword)?))
}
