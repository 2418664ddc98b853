ghost use Rattle.script.specs.Kinds.{Decodes};

use model::fault::Fault;

// A call without its numbers: a record's kind is known before them.
/// What a record asks for, with the number that its first byte has.
#[derive(Clone, Copy, PartialEq, Eq, Debug)]
pub enum Kind {
    SetUp = 0,
    Map = 1,
    Touch = 2,
    Share = 3,
    Begin = 4,
    Acknowledge = 5,
    Finish = 6,
    Flush = 7,
    Look = 8,
}

impl TryFrom<u8> for Kind {
    type Error = Fault;

    ghost try_from_gives = { Decodes };

    // Nine bytes are the number of a kind. By hand: no derive turns a number back into a variant.
    fn try_from(byte: u8) -> Result<Kind, Fault> {
        match byte {
            0 => Ok(Kind::SetUp),
            1 => Ok(Kind::Map),
            2 => Ok(Kind::Touch),
            3 => Ok(Kind::Share),
            4 => Ok(Kind::Begin),
            5 => Ok(Kind::Acknowledge),
            6 => Ok(Kind::Finish),
            7 => Ok(Kind::Flush),
            8 => Ok(Kind::Look),
            _ => Err(Fault::BadRecord),
        }
    }
}
