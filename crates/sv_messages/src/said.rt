// What is said, and where.
use sv_hints::Case;
use sv_num::Place;

/// What is said, and of which place.
#[derive(Drop)]
pub struct Said {
    pub place: Option<Place>,
    pub words: String,
}

impl Said {
    /// Of the place of a broken rule.
    pub fn here(case: &Case, words: String) -> Said {
        Said {
            place: Some(case.place),
            words,
        }
    }

    /// Of no place.
    pub fn nowhere(words: String) -> Said {
        Said { place: None, words }
    }
}
