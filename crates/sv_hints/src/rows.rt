// Names as they are shown.
use std::alloc::{AllocError, Global};

// How many names a row shows, and how many points: all that there may be.
const MOST: usize = 12;

const MOST_POINTS: usize = 32;

// How many bytes of a name are shown, and how many of a longer one from its front and its end.
const LONGEST: usize = 80;

const FRONT: usize = 50;

const END: usize = 27;

/// The bytes of a name as text, of a long one the front and the end.
pub fn shown(alloc: Global, name: &[u8]) -> Result<String, AllocError> {
    if name.len() <= LONGEST {
        return String::from_utf8_lossy(alloc, name);
    }
    let from = name.len().saturating_sub(END);
    let front = String::from_utf8_lossy(alloc, name.get(..FRONT).unwrap_or(b""))?;
    let end = String::from_utf8_lossy(alloc, name.get(from..).unwrap_or(b""))?;
    format!(in alloc; "{front}...{end}")
}

/// A number in decimal, its digits in groups of three; what is too large to be counted is over
/// 10^19.
pub fn grouped(alloc: Global, number: u64) -> Result<String, AllocError> {
    if number == u64::MAX {
        return format!(in alloc; "over 10^19");
    }
    let digits = format!(in alloc; "{number}")?;
    let mut left = digits.len();
    let mut text = String::new(alloc);
    for digit in digits.as_str().chars() {
        text.push(digit)?;
        left = left.saturating_sub(1);
        if left > 0 && left % 3 == 0 {
            text.push(',')?;
        }
    }
    Ok(text)
}

/// The name of a file as it is shown: control characters, and others that cannot be seen, are
/// escaped; quotes and backslashes stand as they are.
pub fn file_name(alloc: Global, name: &str) -> Result<String, AllocError> {
    let escaped = format!(in alloc; "{}", name.escape_debug())?;
    let mut text = String::new(alloc);
    let mut is_behind = false;
    for c in escaped.as_str().chars() {
        if c == '\\' && !is_behind {
            is_behind = true;
        } else {
            if is_behind && !is_quote(c) {
                text.push('\\')?;
            }
            text.push(c)?;
            is_behind = false;
        }
    }
    Ok(text)
}

// Whether a character is escaped though it can be seen.
fn is_quote(c: char) -> bool {
    c == '\'' || c == '"' || c == '\\'
}

/// The bytes of a word of a stimulus as they are shown, as those of a name of a file.
pub fn shown_bytes(alloc: Global, word: &[u8]) -> Result<String, AllocError> {
    let word = shown(alloc, word)?;
    file_name(alloc, word.as_str())
}

/// A word of a command as it is shown, of a long one the front and the end.
pub fn shown_word(alloc: Global, word: &str) -> Result<String, AllocError> {
    let word = file_name(alloc, word)?;
    shown(alloc, word.as_str().as_bytes())
}

/// Names in a row, the first of them shown and the others counted.
#[derive(Drop)]
pub struct Row {
    alloc: Global,
    text: String,
    count: usize,
    most: usize,
}

impl Row {
    /// A row of none.
    pub fn new(alloc: Global) -> Row {
        Row {
            alloc,
            text: String::new(alloc),
            count: 0,
            most: MOST,
        }
    }

    /// A row of none, for points, of which each is shown.
    pub fn of_points(alloc: Global) -> Row {
        Row {
            alloc,
            text: String::new(alloc),
            count: 0,
            most: MOST_POINTS,
        }
    }

    /// Adds a name, with something behind it.
    pub fn add(&mut self, name: &[u8], behind: &str) -> Result<(), AllocError> {
        if self.count < self.most {
            if self.count > 0 {
                self.text.push_str(", ")?;
            }
            let name = shown(self.alloc, name)?;
            self.text.push('`')?;
            self.text.push_str(name.as_str())?;
            self.text.push('`')?;
            self.text.push_str(behind)?;
        }
        self.count = self.count.saturating_add(1);
        Ok(())
    }

    /// The row as text.
    pub fn finish(mut self) -> Result<String, AllocError> {
        if self.count == 0 {
            self.text.push_str("none")?;
        }
        let behind = self.count.saturating_sub(self.most);
        if behind > 0 {
            let more = format!(in self.alloc; " and {behind} more")?;
            self.text.push_str(more.as_str())?;
        }
        Ok(self.text)
    }
}
