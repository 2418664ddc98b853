use super::asked::Asked;
use super::outcome::Outcome;
use super::summary::Summary;
use script::answer::Reply;
use script::record::RECORD;
use std::fmt;

/// What is told of a script that was played: a line for each record, if not brief, and the summary.
#[derive(Clone, Copy)]
pub struct Statement<'a> {
    pub script: &'a [u8],
    pub replies: &'a [Reply],
    pub summary: &'a Summary,
    /// Plain yes or no: no value goes with it.
    pub brief: bool,
}

impl fmt::Display for Statement<'_> {
    fn fmt<W: fmt::Write>(&self, f: &mut fmt::Formatter<W>) -> fmt::Result {
        if !self.brief {
            for (i, (bytes, reply)) in self.script.chunks(RECORD).zip(self.replies).enumerate() {
                let asked = Asked::of(bytes, *reply);
                let outcome = Outcome::of(asked, reply.outcome);
                writeln!(f, "{}: {asked}: {outcome}", i + 1)?;
            }
        }
        let summary = self.summary;
        write!(f, "{summary}")
    }
}
