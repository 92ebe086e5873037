// Words in tables, so that each is a row of data and no code.

/// A word, and what is said of it.
pub type Hint = (&'static [u8], &'static str);

/// What a table says of a word, if it has the word.
pub fn hint_on(word: &[u8], table: &[Hint]) -> Option<&'static str> {
    for row in table {
        if row.0 == word {
            return Some(row.1);
        }
    }
    None
}

/// A word, the one that stands behind it, and what is said of the two.
pub type PairHint = (&'static [u8], &'static [u8], &'static str);

/// What a table says of two words, if it has them.
pub fn hint_on_pair(before: &[u8], word: &[u8], table: &[PairHint]) -> Option<&'static str> {
    for row in table {
        if row.0 == before && row.1 == word {
            return Some(row.2);
        }
    }
    None
}

/// Whether a word is in a list.
pub fn is_among(word: &[u8], list: &[&[u8]]) -> bool {
    for listed in list {
        if *listed == word {
            return true;
        }
    }
    false
}
