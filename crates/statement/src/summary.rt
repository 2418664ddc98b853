ghost use Rattle.std.specs.Prelude.{◌≡◌, ◌+◌, ◌^◌, ◌<◌, length, IfOk, OnOk};
ghost use Rattle.space.specs.Memories.{memory_state};
ghost use Rattle.tree.specs.Pools.{in_use};
ghost use Rattle.model.specs.Faults.{number_of};
ghost use Rattle.statement.specs.Sights.{seen_at, is_mapped, is_closing};
ghost use Rattle.statement.specs.Counts.{one, accepted_in, count_below, mapped_at, closing_at};
ghost use Rattle.statement.specs.Tables.{times_in, entry_at, OneMore, Tabled};

use super::phrases::fault_words;
use super::sight::Sight;
use model::fault::Fault;
use model::page::{Epoch, Page};
use model::sizes::PAGES;
use script::answer::Reply;
use space::memory::Memory;
use std::alloc::{AllocError, Global};
use std::collections::BTreeMap;
use std::fmt;

/// What came of a whole script, and what the memory is after it.
#[derive(Drop)]
pub struct Summary {
    pub records: usize,
    pub tally: Tally,
    pub refusals: BTreeMap<u8, Refusals>,
    pub census: Census,
    pub frames: usize,
    pub nodes: usize,
    pub epoch: Epoch,
}

/// How many records were accepted, and how many refused.
#[derive(Clone, Copy)]
pub struct Tally {
    pub accepted: usize,
    pub refused: usize,
}

/// How many records were refused by faults of one number, with one of them.
#[derive(Clone, Copy)]
pub struct Refusals {
    pub fault: Fault,
    pub count: usize,
}

/// How many pages are mapped, and how many closing.
#[derive(Clone, Copy)]
pub struct Census {
    pub mapped: u32,
    pub closing: u32,
}

impl Summary {
    /// Tallies the replies to a script, and takes stock of the memory that gave them.
    pub fn new(heap: Global, replies: &[Reply], memory: &Memory) -> Result<Summary, AllocError>
        ensures records { IfOk result (λ s. s.records ≡ length replies.now) }
        ensures accepted { IfOk result (λ s. s.tally.accepted ≡ accepted_in replies.now) }
        ensures all { IfOk result (λ s. s.tally.accepted + s.tally.refused ≡ s.records) }
        ensures refusals { IfOk result (λ s. Tabled replies.now s.refusals) }
        ensures mapped { IfOk result (λ s. s.census.mapped ≡ count_below 262144 (mapped_at (memory_state memory.now))) }
        ensures closing { IfOk result (λ s. s.census.closing ≡ count_below 262144 (closing_at (memory_state memory.now))) }
        ensures frames { IfOk result (λ s. s.frames ≡ in_use (memory_state memory.now).frames) }
        ensures nodes { IfOk result (λ s. s.nodes ≡ in_use (memory_state memory.now).tree.pool) }
        ensures epoch { IfOk result (λ s. s.epoch ≡ (memory_state memory.now).epoch) }
    {
        Ok(Summary {
            records: replies.len(),
            tally: Tally::of(replies),
            refusals: refusals_by_number(heap, replies)?,
            census: Census::of(memory),
            frames: memory.frames_in_use(),
            nodes: memory.nodes_in_use(),
            epoch: memory.epoch(),
        })
    }
}

impl Tally {
    // Each reply counts once.
    fn of(replies: &[Reply]) -> Tally
        ensures accepted { result.accepted ≡ accepted_in replies.now }
        ensures all { result.accepted + result.refused ≡ length replies.now }
    {
        let accepted = replies.iter().filter(|reply| reply.outcome.is_ok()).count();
        Tally {
            accepted,
            refused: replies.len() - accepted,
        }
    }
}

// Refusals by the numbers of their faults.
#[tactic(auto, using(crate::proofs::Tabling::tabling))]
fn refusals_by_number(heap: Global, replies: &[Reply]) -> Result<BTreeMap<u8, Refusals>, AllocError>
    ensures { IfOk result (λ m. Tabled replies.now m) }
{
    let mut refusals = BTreeMap::new(heap);
    for reply in replies {
        if let Err(fault) = reply.outcome {
            count_refusal(&mut refusals, fault)?;
        }
    }
    Ok(refusals)
}

// Counts one refusal more under the number of its fault.
fn count_refusal(refusals: &mut BTreeMap<u8, Refusals>, fault: Fault) -> Result<(), AllocError>
    requires room { times_in (entry_at refusals.old (number_of fault)) + 1 < 2 ^ 64 }
    ensures { OnOk result (OneMore refusals.old fault refusals.new) }
{
    let alike = refusals
        .entry(fault.number())?
        .or_insert(Refusals { fault, count: 0 });
    *alike = Refusals {
        fault,
        count: alike.count + 1,
    };
    Ok(())
}

impl Census {
    // Looks at every page once. In a fold the proof that the counts stay below the number of pages does not close.
    #[tactic(auto, using(crate::proofs::Counting::counting))]
    fn of(memory: &Memory) -> Census
        ensures mapped { result.mapped ≡ count_below 262144 (mapped_at (memory_state memory.now)) }
        ensures closing { result.closing ≡ count_below 262144 (closing_at (memory_state memory.now)) }
    {
        let mut census = Census {
            mapped: 0,
            closing: 0,
        };
        for page in 0..PAGES {
            census = census.with(seen(memory, page));
        }
        census
    }

    // The census with one page more.
    fn with(self, sight: Sight) -> Census
        requires { self.mapped + self.closing < 262144 }
        ensures mapped { result.mapped ≡ self.mapped + one (is_mapped sight) }
        ensures closing { result.closing ≡ self.closing + one (is_closing sight) }
        ensures most { result.mapped + result.closing < self.mapped + self.closing + 2 }
    {
        match sight {
            Sight::Vacant => self,
            Sight::Mapped { .. } => Census {
                mapped: self.mapped + 1,
                ..self
            },
            Sight::Closing { .. } => Census {
                closing: self.closing + 1,
                ..self
            },
        }
    }
}

// What a look tells of a page; of a page past the last, that it is vacant.
fn seen(memory: &Memory, page: Page) -> Sight
    ensures { result ≡ seen_at (memory_state memory.now) page }
{
    memory.look(page).map_or(Sight::Vacant, Sight::from)
}

impl fmt::Display for Summary {
    fn fmt<W: fmt::Write>(&self, f: &mut fmt::Formatter<W>) -> fmt::Result {
        let Summary {
            records,
            tally: Tally { accepted, refused },
            refusals,
            census: Census { mapped, closing },
            frames,
            nodes,
            epoch,
        } = self;
        writeln!(f, "records: {records}")?;
        writeln!(f, "accepted: {accepted}")?;
        writeln!(f, "refused: {refused}")?;
        for (number, alike) in refusals.iter() {
            let why = fault_words(alike.fault);
            writeln!(f, "  fault {number}, {why}: {}", alike.count)?;
        }
        writeln!(f, "pages mapped: {mapped}")?;
        writeln!(f, "pages closing: {closing}")?;
        writeln!(f, "frames in use: {frames}")?;
        writeln!(f, "nodes in use: {nodes}, the root among them")?;
        writeln!(f, "epoch: {epoch}")
    }
}
