//! How far a text is the beginning of one JSON object (RFC 8259), byte by byte.

/// What a text that is one JSON object may go on with.
#[derive(Clone, Copy, PartialEq, Eq)]
pub enum Expected {
    /// The object.
    Object,
    /// The first key of an object, or its end.
    FirstKey,
    /// A further key.
    Key,
    /// The colon behind a key.
    Colon,
    /// The first item of an array, or its end.
    FirstItem,
    /// A value.
    Value,
    /// A comma behind a value, or the end of what it stands in.
    Comma,
    /// White space behind the object.
    End,
    /// More of a string, which is a key or a value.
    Text { is_key: bool },
    /// What is escaped in a string.
    Escape { is_key: bool },
    /// So many hexadecimal digits of an escape.
    Hex { is_key: bool, left: u8 },
    /// More of a number.
    Number(Digits),
    /// The rest of `true`, `false` or `null`.
    Literal(&'static [u8]),
}

/// How far a number is.
#[derive(Clone, Copy, PartialEq, Eq)]
pub enum Digits {
    Minus,
    Zero,
    Whole,
    Point,
    Fraction,
    Letter,
    Sign,
    Exponent,
}

/// How far a text was read that nests at most 128 deep.
#[derive(Clone, Copy)]
pub struct Scanner {
    next: Expected,
    /// A bit for each array or object that is open, 1 for an object; the last is the innermost.
    open: u128,
    /// How many are open.
    pub depth: u32,
}

fn is_white_space(byte: u8) -> bool {
    matches!(byte, b' ' | b'\t' | b'\n' | b'\r')
}

impl Digits {
    /// How far the number is behind this byte; none where the byte isn't one of it.
    fn after(self, byte: u8) -> Option<Digits> {
        let is_digit = byte.is_ascii_digit();
        match (self, byte) {
            (Digits::Minus, b'0') => Some(Digits::Zero),
            (Digits::Minus | Digits::Whole, _) if is_digit => Some(Digits::Whole),
            (Digits::Zero | Digits::Whole, b'.') => Some(Digits::Point),
            (Digits::Zero | Digits::Whole | Digits::Fraction, b'e' | b'E') => Some(Digits::Letter),
            (Digits::Point | Digits::Fraction, _) if is_digit => Some(Digits::Fraction),
            (Digits::Letter, b'+' | b'-') => Some(Digits::Sign),
            (Digits::Letter | Digits::Sign | Digits::Exponent, _) if is_digit => {
                Some(Digits::Exponent)
            }
            _ => None,
        }
    }

    /// Whether the number may end here.
    fn may_end(self) -> bool {
        matches!(
            self,
            Digits::Zero | Digits::Whole | Digits::Fraction | Digits::Exponent
        )
    }
}

impl Scanner {
    /// Nothing was read.
    pub fn new() -> Scanner {
        Scanner {
            next: Expected::Object,
            open: 0,
            depth: 0,
        }
    }

    /// What may come next.
    pub fn next(&self) -> Expected {
        self.next
    }

    /// Reads one byte more. Whether the text may go on with it.
    pub fn read(&mut self, byte: u8) -> bool {
        match self.after(byte) {
            Some(next) => {
                self.next = next;
                true
            }
            None => false,
        }
    }

    /// What may come behind this byte; none where the text can't go on with it.
    fn after(&mut self, byte: u8) -> Option<Expected> {
        match self.next {
            Expected::Text { is_key } => after_text(byte, is_key),
            Expected::Escape { is_key } => after_escape(byte, is_key),
            Expected::Hex { is_key, left } => after_hex(byte, is_key, left),
            Expected::Number(digits) => self.after_number(byte, digits),
            Expected::Literal(rest) => after_literal(byte, rest),
            next if is_white_space(byte) => Some(next),
            next => self.after_mark(byte, next),
        }
    }

    /// The same outside strings, numbers and literals, of no white space.
    fn after_mark(&mut self, byte: u8, next: Expected) -> Option<Expected> {
        match (next, byte) {
            (Expected::Object, b'{') => self.opens(true),
            (Expected::FirstKey | Expected::Key, b'"') => Some(Expected::Text { is_key: true }),
            (Expected::FirstKey, b'}') | (Expected::FirstItem, b']') => self.closes(),
            (Expected::Colon, b':') => Some(Expected::Value),
            (Expected::FirstItem | Expected::Value, _) => self.begins(byte),
            (Expected::Comma, b',') if self.is_in_object() => Some(Expected::Key),
            (Expected::Comma, b',') => Some(Expected::Value),
            (Expected::Comma, b'}') if self.is_in_object() => self.closes(),
            (Expected::Comma, b']') if !self.is_in_object() => self.closes(),
            _ => None,
        }
    }

    /// What may come behind the first byte of a value.
    fn begins(&mut self, byte: u8) -> Option<Expected> {
        match byte {
            b'{' => self.opens(true),
            b'[' => self.opens(false),
            b'"' => Some(Expected::Text { is_key: false }),
            b'-' => Some(Expected::Number(Digits::Minus)),
            b'0' => Some(Expected::Number(Digits::Zero)),
            b'1'..=b'9' => Some(Expected::Number(Digits::Whole)),
            b't' => Some(Expected::Literal(b"rue")),
            b'f' => Some(Expected::Literal(b"alse")),
            b'n' => Some(Expected::Literal(b"ull")),
            _ => None,
        }
    }

    /// The same in a number, which this byte may end.
    fn after_number(&mut self, byte: u8, digits: Digits) -> Option<Expected> {
        if let Some(digits) = digits.after(byte) {
            return Some(Expected::Number(digits));
        }
        if !digits.may_end() {
            return None;
        }
        if is_white_space(byte) {
            return Some(Expected::Comma);
        }
        self.after_mark(byte, Expected::Comma)
    }

    fn is_in_object(&self) -> bool {
        self.open & 1 == 1
    }

    fn opens(&mut self, is_object: bool) -> Option<Expected> {
        self.open = (self.open << 1) | u128::from(is_object);
        self.depth = self.depth.saturating_add(1);
        if is_object {
            Some(Expected::FirstKey)
        } else {
            Some(Expected::FirstItem)
        }
    }

    fn closes(&mut self) -> Option<Expected> {
        self.open >>= 1;
        self.depth = self.depth.saturating_sub(1);
        if self.depth == 0 {
            Some(Expected::End)
        } else {
            Some(Expected::Comma)
        }
    }
}

/// What may come behind a string.
fn behind_text(is_key: bool) -> Expected {
    if is_key {
        Expected::Colon
    } else {
        Expected::Comma
    }
}

fn after_text(byte: u8, is_key: bool) -> Option<Expected> {
    match byte {
        b'"' => Some(behind_text(is_key)),
        b'\\' => Some(Expected::Escape { is_key }),
        b' '.. => Some(Expected::Text { is_key }),
        _ => None,
    }
}

fn after_escape(byte: u8, is_key: bool) -> Option<Expected> {
    match byte {
        b'"' | b'\\' | b'/' | b'b' | b'f' | b'n' | b'r' | b't' => Some(Expected::Text { is_key }),
        b'u' => Some(Expected::Hex { is_key, left: 4 }),
        _ => None,
    }
}

fn after_hex(byte: u8, is_key: bool, left: u8) -> Option<Expected> {
    if !byte.is_ascii_hexdigit() {
        return None;
    }
    Some(match left.saturating_sub(1) {
        0 => Expected::Text { is_key },
        left => Expected::Hex { is_key, left },
    })
}

fn after_literal(byte: u8, rest: &'static [u8]) -> Option<Expected> {
    match rest {
        [last] if *last == byte => Some(Expected::Comma),
        [first, more @ ..] if *first == byte => Some(Expected::Literal(more)),
        _ => None,
    }
}
