ghost use Rattle.std.specs.Prelude.{◌≡◌, Some};
ghost use Rattle.statement.specs.Told.{outcome_of};
ghost use Rattle.statement.specs.Words.{outcome_words};

use super::asked::Asked;
use super::phrases::{fault_words, part_words};
use super::sight::Sight;
use model::call::Call;
use model::fault::Fault;
use std::fmt;

/// What came of a record.
#[derive(Clone, Copy)]
pub enum Outcome {
    Answer(u32),
    /// A look's answer, with what it tells.
    Seen { answer: u32, sight: Sight },
    Refused(Fault),
}

impl Outcome {
    /// What is told of a reply's outcome: of a look's answer, what was seen.
    pub fn of(asked: Asked, outcome: Result<u32, Fault>) -> Outcome
        ensures { result ≡ outcome_of asked outcome }
    {
        match (outcome, asked) {
            (Ok(answer), Asked::Call(Call::Look { .. })) => Outcome::Seen {
                answer,
                sight: Sight::from(answer),
            },
            (Ok(answer), _) => Outcome::Answer(answer),
            (Err(fault), _) => Outcome::Refused(fault),
        }
    }
}

impl fmt::Display for Outcome {
    ghost output = { λ o. Some (outcome_words o) };

    fn fmt<W: fmt::Write>(&self, f: &mut fmt::Formatter<W>) -> fmt::Result {
        match *self {
            Outcome::Answer(answer) => write!(f, "answer {answer}"),
            Outcome::Seen { answer, sight } => write!(f, "answer {answer}, {sight}"),
            Outcome::Refused(fault) => {
                let part = part_words(fault.part());
                let number = fault.number();
                let why = fault_words(fault);
                write!(f, "refused by the {part}, fault {number}, {why}")?;
                match fault.place() {
                    Some(page) => write!(f, ", at page {page}"),
                    None => Ok(()),
                }
            }
        }
    }
}
