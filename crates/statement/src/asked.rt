ghost use Rattle.std.specs.Prelude.{◌≡◌};
ghost use Rattle.statement.specs.Told.{asked_by};

use model::call::Call;
use script::answer::Reply;
use script::record::{RECORD, read};
use std::fmt;

/// What the bytes of one record ask for.
#[derive(Clone, Copy)]
pub enum Asked {
    Call(Call),
    /// A whole record that asks for no call.
    Unclear { kind: u8, core: u8 },
    /// Bytes at the end that are too few for a record.
    Rest(usize),
}

impl Asked {
    /// What is asked for by the bytes that a reply answers.
    pub fn of(bytes: &[u8], reply: Reply) -> Asked
        ensures { result ≡ asked_by bytes.now reply }
    {
        if bytes.len() < RECORD {
            return Asked::Rest(bytes.len());
        }
        match read(bytes) {
            Ok(call) => Asked::Call(call),
            Err(_) => Asked::Unclear {
                kind: reply.kind,
                core: reply.core,
            },
        }
    }
}

impl fmt::Display for Asked {
    fn fmt<W: fmt::Write>(&self, f: &mut fmt::Formatter<W>) -> fmt::Result {
        match *self {
            Asked::Call(call) => write!(f, "{call}"),
            Asked::Unclear { kind, core } => write!(f, "record of kind {kind}, core {core}"),
            Asked::Rest(1) => write!(f, "rest of 1 byte"),
            Asked::Rest(count) => write!(f, "rest of {count} bytes"),
        }
    }
}
