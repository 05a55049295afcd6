//! The word that was perhaps meant.

use limits::Heap;
use rank_text::text_writer::TextWriter;
use std::alloc::AllocError;
use strsim::osa_distance;

/// The nearest of the words that were looked at so far, if one of them is near:
/// as many letters may be wrong, missing, too many or swapped as a third of the
/// word has.
#[derive(Drop)]
pub struct NearWord<'a, 'w> {
    word: &'a str,
    found: Option<&'w str>,
    /// Another word is nearer than the one that was found if its distance is below this.
    distance: usize,
    /// Whether there was memory to look at all of them.
    room: Result<(), AllocError>,
}

impl<'a, 'w> NearWord<'a, 'w> {
    /// For this word. To bytes that are no text no word is near.
    pub fn to(word: &'a [u8]) -> NearWord<'a, 'w> {
        let word = match std::str::from_utf8(word) {
            Ok(word) => word,
            Err(_) => "",
        };
        NearWord {
            word,
            found: None,
            distance: 1usize.saturating_add(word.len() / 3).min(3),
            room: Ok(()),
        }
    }

    /// Looks at these words, none of which is empty or the word itself.
    pub fn look(&mut self, alloc: Heap, words: &[&'w str]) {
        for other in words {
            self.look_at(alloc, *other);
        }
    }

    /// Looks at one more.
    pub fn look_at(&mut self, alloc: Heap, other: &'w str) {
        match osa_distance(alloc, self.word, other) {
            Ok(distance) => {
                if distance < self.distance {
                    self.distance = distance;
                    self.found = Some(other);
                }
            }
            Err(error) => self.room = Err(error),
        }
    }

    /// The nearest.
    pub fn found(&self) -> Result<Option<&'w str>, AllocError> {
        match self.room {
            Ok(()) => Ok(self.found),
            Err(_) => Err(AllocError),
        }
    }

    /// Writes that the nearest was perhaps meant, if one is near.
    pub fn put(&self, told: &mut TextWriter) {
        match self.found() {
            Ok(Some(near)) => {
                told.text("; perhaps `");
                told.text(near);
                told.text("` is meant");
            }
            Ok(None) => {}
            Err(error) => told.fail(error),
        }
    }
}

/// The word among these that is nearest to one that isn't among them, if it is near.
pub fn nearest<'w>(
    alloc: Heap,
    word: &[u8],
    words: &[&'w str],
) -> Result<Option<&'w str>, AllocError> {
    let mut nearest = NearWord::to(word);
    nearest.look(alloc, words);
    nearest.found()
}

/// Writes the word among these that was perhaps meant, if one is near.
pub fn put_nearest(told: &mut TextWriter, alloc: Heap, word: &[u8], words: &[&str]) {
    let mut nearest = NearWord::to(word);
    nearest.look(alloc, words);
    nearest.put(told);
}

/// Whether the text is one of these words.
pub fn is_among(text: &[u8], words: &[&str]) -> bool {
    for word in words {
        if word.as_bytes() == text {
            return true;
        }
    }
    false
}
