//! What could stand in an outcome next for a rank.
use crate::judge::follower::Follower;
use matching::Selector;
use rank_machine::Want;
use rank_text::text_writer::TextWriter;

/// Writes each line that could stand next for the rank in an outcome that goes
/// on from the run so far.
pub(crate) fn put_could(to: &mut TextWriter, follower: &Follower<'_, '_>, rank: u8) {
    match follower.wants(rank) {
        Want::Print(value) => {
            put_act(to, follower, rank, "print");
            to.text(" ");
            to.integer(value);
            to.sign('\n');
        }
        Want::Receive(selector) => put_waiting(to, follower, rank, &selector, "recv"),
        Want::Probe(selector) => put_waiting(to, follower, rank, &selector, "hit"),
        Want::TryProbe(selector) => {
            put_messages(to, follower, rank, &selector, "hit");
            put_act(to, follower, rank, "miss");
            to.sign('\n');
        }
        Want::Halted => {
            put_line(to, rank, "end");
            to.text(" halted\n");
        }
        Want::Faulted(fault) => {
            put_line(to, rank, "end");
            to.numbered(" fault ", u64::from(fault.number()), "\n");
        }
        Want::Internal | Want::Send { .. } => {}
    }
}

// Begins a line with this word.
fn put_line(to: &mut TextWriter, rank: u8, word: &str) {
    let rank = u64::from(rank);
    to.numbered("rank ", rank, " could have: ");
    to.text(word);
    to.numbered(" ", rank, "");
}

// Begins the line of the rank's next act.
fn put_act(to: &mut TextWriter, follower: &Follower<'_, '_>, rank: u8, word: &str) {
    put_line(to, rank, word);
    to.numbered(" at ", u64::from(follower.next_clock(rank)), "");
}

// The messages that the rank waits for, or that it has stalled.
fn put_waiting(
    to: &mut TextWriter,
    follower: &Follower<'_, '_>,
    rank: u8,
    selector: &Selector,
    word: &str,
) {
    if !put_messages(to, follower, rank, selector, word) {
        put_line(to, rank, "end");
        to.text(" stalled\n");
    }
}

// Whether there is a message that the rank may take or find.
fn put_messages(
    to: &mut TextWriter,
    follower: &Follower<'_, '_>,
    rank: u8,
    selector: &Selector,
    word: &str,
) -> bool {
    let mut some = false;
    for source in 0..follower.run.ranks() {
        if let Some(sent) = follower.eligible(rank, selector, source) {
            put_act(to, follower, rank, word);
            to.numbered(" from ", u64::from(source), "");
            to.numbered(" at ", sent as u64, "\n");
            some = true;
        }
    }
    some
}
