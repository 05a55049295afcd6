//! Words of several lines.

use rank_text::text_writer::TextWriter;

/// Writes how many there are of what a noun names, as `1 act` or `3 acts`.
pub fn put_count(to: &mut TextWriter, count: u64, noun: &str) {
    to.numbered("", count, " ");
    to.text(noun);
    if count != 1 {
        to.sign('s');
    }
}
