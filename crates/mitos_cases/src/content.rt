//! Bytes in their written form. A backslash begins an escape: `\\`, `\n`, `\r`, `\t`, `\xHH` for the byte of two hexadecimal
//! digits, and `\{COUNT:PART\}` for a part that comes so many times. In such a part `\+N;` is a number in decimal: N where the part
//! comes first, and one more each time.
use crate::wrong::Wrong;
use std::alloc::Global;

/// The bytes of a content line, with its line feed. Where the line ends in a backslash alone, there is no line feed.
pub(crate) fn line_of(alloc: Global, text: &[u8]) -> Result<Vec<u8>, Wrong> {
    let written = Written::of(alloc, text)?;
    match written.state {
        State::Plain => {
            let mut bytes = written.finish()?;
            bytes.push(b'\n')?;
            Ok(bytes)
        }
        State::Escape => written.finish(),
        _ => Err(Wrong::UNFINISHED),
    }
}

/// The bytes of a word.
pub(crate) fn word_of(alloc: Global, text: &[u8]) -> Result<Vec<u8>, Wrong> {
    let written = Written::of(alloc, text)?;
    match written.state {
        State::Plain => written.finish(),
        _ => Err(Wrong::UNFINISHED),
    }
}

// What was read so far: the bytes outside a repeated part, and that part, where one has begun.
#[derive(Drop)]
struct Written {
    alloc: Global,
    bytes: Vec<u8>,
    repeated: Option<Repeated>,
    state: State,
}

#[derive(Drop)]
struct Repeated {
    times: u32,
    part: Vec<Piece>,
}

// A piece of a repeated part.
#[derive(Clone, Copy)]
enum Piece {
    Byte(u8),
    /// The decimal digits of a number, which is this one where the part comes first.
    Number(u32),
}

// Where the reading stands.
#[derive(Clone, Copy)]
enum State {
    Plain,
    /// After a backslash.
    Escape,
    /// After `\x`.
    Hex,
    /// After `\x` and this digit.
    HexAfter(u8),
    /// After `\{`, and the digits of this number.
    Count(Option<u32>),
    /// After `\+`, and the digits of this number.
    Number(Option<u32>),
}

impl Written {
    fn of(alloc: Global, text: &[u8]) -> Result<Written, Wrong> {
        let mut written = Written {
            alloc,
            bytes: Vec::new(alloc),
            repeated: None,
            state: State::Plain,
        };
        for byte in text {
            written.state = written.take(*byte)?;
        }
        Ok(written)
    }

    // Takes a byte of the text, and tells where the reading stands then.
    fn take(&mut self, byte: u8) -> Result<State, Wrong> {
        match self.state {
            State::Plain => self.plain(byte),
            State::Escape => self.escape(byte),
            State::Hex => first_digit(byte),
            State::HexAfter(high) => self.second_digit(high, byte),
            State::Count(count) => self.count(count, byte),
            State::Number(first) => self.number(first, byte),
        }
    }

    fn plain(&mut self, byte: u8) -> Result<State, Wrong> {
        match byte {
            b'\\' => Ok(State::Escape),
            _ => self.put(byte),
        }
    }

    fn second_digit(&mut self, high: u8, byte: u8) -> Result<State, Wrong> {
        let low = hexadecimal(byte)?;
        self.put(high.wrapping_mul(16) | low)
    }

    fn count(&mut self, count: Option<u32>, byte: u8) -> Result<State, Wrong> {
        match count {
            Some(times) if byte == b':' => self.repeat(times),
            _ => Ok(State::Count(longer_count(count, byte)?)),
        }
    }

    fn number(&mut self, first: Option<u32>, byte: u8) -> Result<State, Wrong> {
        match first {
            Some(first) if byte == b';' => self.put_number(first),
            _ => Ok(State::Number(longer_count(first, byte)?)),
        }
    }

    fn escape(&mut self, byte: u8) -> Result<State, Wrong> {
        match byte {
            b'\\' => self.put(b'\\'),
            b'n' => self.put(b'\n'),
            b'r' => self.put(b'\r'),
            b't' => self.put(b'\t'),
            b'x' => Ok(State::Hex),
            b'{' => Ok(State::Count(None)),
            b'+' => Ok(State::Number(None)),
            b'}' => self.put_repeated(),
            _ => Err(Wrong::NO_ESCAPE),
        }
    }

    fn put(&mut self, byte: u8) -> Result<State, Wrong> {
        match &mut self.repeated {
            Some(repeated) => repeated.add(Piece::Byte(byte)),
            None => push(&mut self.bytes, byte),
        }
    }

    // Begins a part that comes so many times.
    fn repeat(&mut self, times: u32) -> Result<State, Wrong> {
        if self.repeated.is_some() {
            return Err(Wrong::NESTED);
        }
        self.repeated = Some(Repeated {
            times,
            part: Vec::new(self.alloc),
        });
        Ok(State::Plain)
    }

    // Puts a number into the repeated part.
    fn put_number(&mut self, first: u32) -> Result<State, Wrong> {
        match &mut self.repeated {
            Some(repeated) => repeated.add(Piece::Number(first)),
            None => Err(Wrong::UNCOUNTED),
        }
    }

    // Ends the repeated part.
    fn put_repeated(&mut self) -> Result<State, Wrong> {
        let Some(repeated) = self.repeated.take() else {
            return Err(Wrong::NESTED);
        };
        for time in 0..repeated.times {
            self.put_part(&repeated.part, time)?;
        }
        Ok(State::Plain)
    }

    // Puts a repeated part, before which it came so often.
    fn put_part(&mut self, part: &[Piece], time: u32) -> Result<(), Wrong> {
        for piece in part {
            self.put_piece(*piece, time)?;
        }
        Ok(())
    }

    fn put_piece(&mut self, piece: Piece, time: u32) -> Result<(), Wrong> {
        match piece {
            Piece::Byte(byte) => Ok(self.bytes.push(byte)?),
            Piece::Number(first) => self.put_digits(u64::from(first) + u64::from(time)),
        }
    }

    fn put_digits(&mut self, number: u64) -> Result<(), Wrong> {
        let digits = format!(in self.alloc; "{number}")?;
        Ok(self.bytes.extend_from_slice(digits.as_bytes())?)
    }

    fn finish(self) -> Result<Vec<u8>, Wrong> {
        if self.repeated.is_some() {
            return Err(Wrong::UNFINISHED);
        }
        Ok(self.bytes)
    }
}

impl Repeated {
    fn add(&mut self, piece: Piece) -> Result<State, Wrong> {
        self.part.push(piece)?;
        Ok(State::Plain)
    }
}

fn push(bytes: &mut Vec<u8>, byte: u8) -> Result<State, Wrong> {
    bytes.push(byte)?;
    Ok(State::Plain)
}

fn first_digit(byte: u8) -> Result<State, Wrong> {
    Ok(State::HexAfter(hexadecimal(byte)?))
}

fn hexadecimal(byte: u8) -> Result<u8, Wrong> {
    match byte {
        b'0'..=b'9' => Ok(byte - b'0'),
        b'a'..=b'f' => Ok(byte - b'a' + 10),
        b'A'..=b'F' => Ok(byte - b'A' + 10),
        _ => Err(Wrong::NOT_NUMBER),
    }
}

/// The number whose last digit is this byte, after the digits of that one.
pub(crate) fn longer(before: u64, byte: u8) -> Result<u64, Wrong> {
    if !byte.is_ascii_digit() {
        return Err(Wrong::NOT_NUMBER);
    }
    let Some(tens) = before.checked_mul(10) else {
        return Err(Wrong::NOT_NUMBER);
    };
    match tens.checked_add(u64::from(byte - b'0')) {
        Some(number) => Ok(number),
        None => Err(Wrong::NOT_NUMBER),
    }
}

// The same for a number of 32 bits, whose first digit this may be.
fn longer_count(before: Option<u32>, byte: u8) -> Result<Option<u32>, Wrong> {
    match u32::try_from(longer(u64::from(before.unwrap_or(0)), byte)?) {
        Ok(count) => Ok(Some(count)),
        Err(_) => Err(Wrong::NOT_NUMBER),
    }
}
