//! Ranks that wait for each other.

use crate::trace::columns::put_between;
use crate::trace::ends::waits_for;
use audit::End;
use crash_free::Sim;
use limits::MOST_RANKS;
use rank_text::text_writer::TextWriter;

/// Writes a line for each circle of ranks in which each waits for the next one alone.
pub fn put_circles(to: &mut TextWriter, run: &Sim<'_>, ends: &[End]) {
    for rank in 0..run.ranks() {
        if let Some(members) = circle_from(run, ends, rank) {
            put_circle(to, &members);
        }
    }
}

/// Of which ranks the circle is in which this one has the lowest number, if
/// there is one.
pub fn circle_from(run: &Sim<'_>, ends: &[End], rank: u8) -> Option<[bool; MOST_RANKS]> {
    let mut members = [false; MOST_RANKS];
    if is_lowest_of_circle(run, ends, rank, &mut members) {
        Some(members)
    } else {
        None
    }
}

// The one rank that a stalled rank waits for.
fn awaited(run: &Sim<'_>, ends: &[End], rank: u8) -> Option<u8> {
    match ends.get(usize::from(rank)) {
        Some(End::Stalled) => waits_for(run, rank)?.source,
        Some(End::Halted | End::Faulted(_) | End::Unfinished) | None => None,
    }
}

// Whether the ranks that wait one for the other from this one on come back to it, and it has the lowest number. They are noted.
fn is_lowest_of_circle(
    run: &Sim<'_>,
    ends: &[End],
    rank: u8,
    members: &mut [bool; MOST_RANKS],
) -> bool {
    let mut at = rank;
    for _ in 0..MOST_RANKS {
        if let Some(member) = members.get_mut(usize::from(at)) {
            *member = true;
        }
        match awaited(run, ends, at) {
            Some(next) if next == rank => return true,
            Some(next) if next > rank => at = next,
            Some(_) | None => return false,
        }
    }
    false
}

fn put_circle(to: &mut TextWriter, members: &[bool; MOST_RANKS]) {
    let count = count_of(members);
    let (who, what) = if count == 1 {
        ("rank ", " waits for itself\n")
    } else {
        ("ranks ", " wait for each other\n")
    };
    to.text(who);
    put_members(to, members, count);
    to.text(what);
}

fn count_of(members: &[bool; MOST_RANKS]) -> usize {
    let mut count = 0usize;
    for member in members {
        if *member {
            count = count.saturating_add(1);
        }
    }
    count
}

fn put_members(to: &mut TextWriter, members: &[bool; MOST_RANKS], count: usize) {
    let mut shown = 0usize;
    for rank in 0..MOST_RANKS {
        if members[rank] {
            if to.room.is_ok() {
                to.room = put_between(&mut to.text, shown, count);
            }
            to.number(rank as u64);
            shown = shown.saturating_add(1);
        }
    }
}
