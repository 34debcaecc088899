//! Places in a text that is JSON. A place is a number of bytes from the front of the text; where
//! the text has nothing of the kind at a place, the answer is some place, and no fault.

/// The white space of JSON.
fn is_space(byte: u8) -> bool {
    byte == b' ' || byte == b'\t' || byte == b'\n' || byte == b'\r'
}

/// How many brackets are open, and whether the scan is in a text.
#[derive(Clone, Copy)]
struct Nest {
    depth: usize,
    in_text: bool,
    is_escaped: bool,
}

const OPEN_NONE: Nest = Nest {
    depth: 0,
    in_text: false,
    is_escaped: false,
};

impl Nest {
    /// The nest behind one more byte.
    fn after(self, byte: u8) -> Nest {
        if self.in_text {
            return self.after_in_text(byte);
        }
        match byte {
            b'"' => Nest {
                in_text: true,
                ..self
            },
            b'[' | b'{' => Nest {
                depth: self.depth.saturating_add(1),
                ..self
            },
            b']' | b'}' => Nest {
                depth: self.depth.saturating_sub(1),
                ..self
            },
            _ => self,
        }
    }

    /// The nest in a text, behind one more byte.
    fn after_in_text(self, byte: u8) -> Nest {
        let is_escaped = !self.is_escaped && byte == b'\\';
        let ends = !self.is_escaped && byte == b'"';
        Nest {
            in_text: !ends,
            is_escaped,
            ..self
        }
    }

    /// Whether everything that was opened is closed.
    fn is_closed(self) -> bool {
        self.depth == 0 && !self.in_text
    }
}

/// The byte at a place, and 0 where the text has ended.
pub fn byte_at(text: &[u8], at: usize) -> u8 {
    text.get(at).copied().unwrap_or(0)
}

/// The bytes from one place to another, and none where the text has none.
pub fn part_of(text: &[u8], from: usize, to: usize) -> &[u8] {
    text.get(from..to).unwrap_or(b"")
}

/// The first place from here on that has no white space.
pub fn after_space(text: &[u8], from: usize) -> usize {
    for at in from..text.len() {
        if !is_space(text[at]) {
            return at;
        }
    }
    text.len()
}

/// How many brackets are open before this line and column, which count from 1.
pub fn depth_before(text: &[u8], line: usize, column: usize) -> usize {
    let mut nest = OPEN_NONE;
    let mut here = (1usize, 1usize);
    for byte in text {
        if here == (line, column) {
            return nest.depth;
        }
        nest = nest.after(*byte);
        here = if *byte == b'\n' {
            (here.0.saturating_add(1), 1)
        } else {
            (here.0, here.1.saturating_add(1))
        };
    }
    nest.depth
}

/// The place behind the value that begins here.
pub fn value_end(text: &[u8], from: usize) -> usize {
    match byte_at(text, from) {
        b'"' | b'[' | b'{' => closed_end(text, from),
        _ => plain_end(text, from),
    }
}

/// The place behind a text, an array or an object.
fn closed_end(text: &[u8], from: usize) -> usize {
    let mut nest = OPEN_NONE;
    for at in from..text.len() {
        nest = nest.after(text[at]);
        if nest.is_closed() {
            return at + 1;
        }
    }
    text.len()
}

/// The place behind a number, `true`, `false` or `null`.
fn plain_end(text: &[u8], from: usize) -> usize {
    for at in from..text.len() {
        let byte = text[at];
        if is_space(byte) || byte == b',' || byte == b']' || byte == b'}' {
            return at;
        }
    }
    text.len()
}

/// The place of the first item of the array, or the first key of the object, that begins here.
pub fn first_in(text: &[u8], whole: usize) -> Option<usize> {
    let at = after_space(text, whole.saturating_add(1));
    match byte_at(text, at) {
        b']' | b'}' | 0 => None,
        _ => Some(at),
    }
}

/// The place of the next item or key behind a value that ends here.
pub fn next_behind(text: &[u8], end: usize) -> Option<usize> {
    let at = after_space(text, end);
    if byte_at(text, at) == b',' {
        Some(after_space(text, at.saturating_add(1)))
    } else {
        None
    }
}

/// The place of an item of an array, by its number from 0, and the array's own where it has none.
pub fn item_place(text: &[u8], array: usize, number: usize) -> usize {
    nth_in(text, array, number).unwrap_or(array)
}

fn nth_in(text: &[u8], array: usize, number: usize) -> Option<usize> {
    let mut at = first_in(text, array)?;
    for _ in 0..number {
        at = next_behind(text, value_end(text, at))?;
    }
    Some(at)
}

/// The place of the value whose key begins here.
pub fn value_behind(text: &[u8], key: usize) -> usize {
    let colon = after_space(text, value_end(text, key));
    after_space(text, colon.saturating_add(1))
}
