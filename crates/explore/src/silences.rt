//! From which positions of a program on a rank sends another no more messages, or
//! no more of a tag.
ghost use Rattle.std.specs.Prelude.{◌≡◌, IfOk, OnOk, true};
ghost use Rattle.explore.specs.Silences.{Claims, IsTableOf};

mod fixed;
mod line;
mod silence;
mod sought;

use crate::silences::line::tag_of;
use crate::silences::silence::Silence;
pub use crate::silences::sought::Sought;
use limits::Heap;
use rank_language::Program;
use std::alloc::AllocError;
use std::marker::Model;

/// From which positions of one program each rank of so many sends each other no
/// more messages: of a pair a row for all, and one for each tag that a send of the
/// text has as a number. On 16 ranks a program of 100 lines with two tags takes
/// 77 KB.
#[derive(Drop)]
pub struct Silences {
    rows: Vec<Silence, Heap>,
    /// Any, and those tags: as many rows has a pair, in this order.
    tags: Vec<Option<u16>, Heap>,
}

impl Model for Silences {
    ghost use Rattle.std.specs.Prelude.{List};
    ghost use Rattle.explore.specs.declared.silences.silence.Silence.{Silence};

    ghost Value = { List Silence };

    ghost view = { λ t. t.rows.items };
}

impl Silences {
    /// The table of a program on so many ranks. An `Err` means out of memory.
    #[tactic(auto, using(crate::proofs::SilentTable::no_rows))]
    pub fn of(alloc: Heap, program: &Program, ranks: u8) -> Result<Silences, AllocError>
        ensures { IfOk result (λ table. IsTableOf program.now table) }
    {
        let tags = tags_of(alloc, program)?;
        let mut rows = Vec::new(alloc);
        for sender in 0..ranks {
            for receiver in 0..ranks {
                let all = Sought {
                    ranks,
                    sender,
                    receiver,
                    tag: None,
                };
                add_rows(alloc, program, all, &tags, &mut rows)?;
            }
        }
        Ok(Silences { rows, tags })
    }

    /// Whether a sender that stands at this position is known to send no more such
    /// messages. It may still send packets of collectives.
    pub fn claim(&self, sought: Sought, position: usize) -> bool
        ensures { result ≡ true → Claims self.now sought position }
    {
        let place = self.place_of(sought);
        if place >= self.rows.len() {
            return false;
        }
        let row = &self.rows[place];
        row.sought.covers(sought) && row.claims.claims(position)
    }

    // Where the row of these messages is, or else that of all of their pair.
    fn place_of(&self, sought: Sought) -> usize {
        let pair = usize::from(sought.sender) * usize::from(sought.ranks)
            + usize::from(sought.receiver);
        let tag = self.tags.iter().position(|tag| *tag == sought.tag);
        pair.saturating_mul(self.tags.len())
            .saturating_add(tag.unwrap_or(0))
    }
}

// Adds the rows of a pair, one for each of these tags.
#[tactic(auto, using(crate::proofs::SilentTable::row_added))]
fn add_rows(
    alloc: Heap,
    program: &Program,
    all: Sought,
    tags: &[Option<u16>],
    rows: &mut Vec<Silence, Heap>,
) -> Result<(), AllocError>
    requires { IsTableOf program.now rows.old.items }
    ensures { OnOk result (IsTableOf program.now rows.new.items) }
{
    for tag in tags {
        let sought = Sought { tag: *tag, ..all };
        rows.push(Silence::of(alloc, program, sought)?)?;
    }
    Ok(())
}

// Any, and the tags that stand as numbers at sends of the text, each once.
fn tags_of(alloc: Heap, program: &Program) -> Result<Vec<Option<u16>, Heap>, AllocError> {
    let mut tags = Vec::new(alloc);
    tags.push(None)?;
    for position in 0..program.len() {
        if let Some(statement) = program.statement(position) {
            let tag = tag_of(statement);
            if !tags.contains(&tag) {
                tags.push(tag)?;
            }
        }
    }
    Ok(tags)
}
