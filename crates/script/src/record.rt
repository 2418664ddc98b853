ghost use Rattle.std.specs.Prelude.{◌≡◌, ◌≢◌, length, MatchResult};
ghost use Rattle.model.specs.declared.fault.Fault.TheVariants.{BadRecord};
ghost use Rattle.script.specs.FieldUse.{used_by};
ghost use Rattle.script.specs.Records.{words_at, used_or_zero, words_zero, unused_zero, call_of, decoded};

use super::fields::{Fields, fields_of};
use super::kind::Kind;
use model::call::Call;
use model::fault::Fault;

/// How many bytes a record has, and how many its answer.
pub const RECORD: usize = 16;

// A record of a kind, field by field.
#[derive(Clone, Copy)]
struct Record {
    kind: Kind,
    core: u8,
    label: u8,
    zero: u8,
    words: Words,
}

// The three numbers at the end of a record.
#[derive(Clone, Copy)]
struct Words {
    a: u32,
    b: u32,
    c: u32,
}

/// The call that a record of sixteen bytes asks for. Any other bytes are a bad record.
pub fn read(bytes: &[u8]) -> Result<Call, Fault>
    ensures { result ≡ decoded bytes.now }
{
    let &[kind, core, label, zero, ref rest @ ..] = bytes else {
        return Err(Fault::BadRecord);
    };
    let record = Record {
        kind: Kind::try_from(kind)?,
        core,
        label,
        zero,
        words: Words::try_from(rest)?,
    };
    if !record.is_clean() {
        return Err(Fault::BadRecord);
    }
    Ok(Call::from(record))
}

impl TryFrom<&[u8]> for Words {
    type Error = Fault;

    ghost try_from_gives = { λ rest r. MatchResult r (λ words. (length rest.now ≡ 12) × (words ≡ words_at rest.now 0))
        (λ fault. (length rest.now ≢ 12) × (fault ≡ BadRecord)) };

    // Three numbers of four bytes each, the lowest byte first.
    fn try_from(rest: &[u8]) -> Result<Words, Fault> {
        let ([a, b, c], []) = rest.as_chunks() else {
            return Err(Fault::BadRecord);
        };
        Ok(Words {
            a: u32::from_le_bytes(*a),
            b: u32::from_le_bytes(*b),
            c: u32::from_le_bytes(*c),
        })
    }
}

impl Record {
    // Whether each field that the kind does not use is 0, and the zero byte too.
    fn is_clean(self) -> bool
        ensures { result ≡ unused_zero (used_by self.kind) self.core self.label self.zero self.words }
    {
        let fields = fields_of(self.kind);
        fits(fields.core, self.core as u32)
            && fits(fields.label, self.label as u32)
            && self.zero == 0
            && fits(fields.a, self.words.a)
            && fits(fields.b, self.words.b)
            && fits(fields.c, self.words.c)
    }
}

// Whether a field may have this value: any if it is used, else only 0.
fn fits(used: bool, value: u32) -> bool
    ensures { result ≡ used_or_zero used value }
{
    used || value == 0
}

impl From<Record> for Call {
    ghost from_gives = { λ r call. call ≡ call_of r.kind r.core r.label r.words };

    fn from(record: Record) -> Call {
        let (core, label) = (record.core, record.label);
        let Words { a, b, c } = record.words;
        match record.kind {
            Kind::SetUp => Call::SetUp {
                cores: core,
                frames: a,
                nodes: b,
                epoch: c,
            },
            Kind::Map => Call::Map {
                core,
                label,
                first: a,
                count: b,
            },
            Kind::Touch => Call::Touch { core, page: a },
            Kind::Share => Call::Share {
                core,
                source: a,
                target: b,
            },
            Kind::Begin => Call::Begin {
                core,
                first: a,
                count: b,
            },
            Kind::Acknowledge => Call::Acknowledge { core, owner: a },
            Kind::Finish => Call::Finish { core },
            Kind::Flush => Call::Flush { core },
            Kind::Look => Call::Look { page: a },
        }
    }
}
