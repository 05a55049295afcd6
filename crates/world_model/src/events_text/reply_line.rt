//! How a reply is shown.
ghost use Rattle.std.specs.Prelude.{Some};
ghost use Rattle.world_model.specs.EventsText.Output.{reply_text};

use crate::Reply;
use std::fmt;

/// A reply, shown by its word with its numbers behind it.
#[derive(Clone, Copy)]
pub struct ReplyLine(pub Reply);

impl fmt::Display for ReplyLine {
    ghost output = { λ line. Some (reply_text line.0) };

    fn fmt<W: fmt::Write>(&self, f: &mut fmt::Formatter<W>) -> fmt::Result {
        match self.0 {
            Reply::Moved => f.write_str("moved"),
            Reply::Blocked => f.write_str("blocked"),
            Reply::Held => f.write_str("held"),
            Reply::Ended => f.write_str("ended"),
            Reply::PutData { index, number } => write!(f, "put {index} data {number}"),
            Reply::PutAsk { index, from } => write!(f, "put {index} ask {from}"),
            Reply::PutKept { index, upto } => write!(f, "put {index} kept {upto}"),
            Reply::Accepted => f.write_str("accepted"),
            Reply::Repeated => f.write_str("repeated"),
            Reply::Gap => f.write_str("gap"),
            Reply::Noted => f.write_str("noted"),
            Reply::Stored(count) => write!(f, "stored {count}"),
            Reply::Acked => f.write_str("acked"),
            Reply::Imaged => f.write_str("imaged"),
            Reply::Crashed => f.write_str("crashed"),
            Reply::Restarted(left) => write!(f, "restarted {left}"),
            Reply::Released(clock) => write!(f, "released {clock}"),
            Reply::Refused => f.write_str("refused"),
        }
    }
}
