ghost use Rattle.std.specs.Prelude.{◌≡◌, IfOk, OnOk};
ghost use Rattle.space.specs.Memories.{memory_state};
ghost use Rattle.script.specs.Playing.{call_answer, call_after, record_outcome, record_after, reply_to, replies, state_at_end, all_bytes, answer_bytes};
ghost use Rattle.space.specs.States.{before_set_up};

use super::answer::Reply;
use super::record::{RECORD, read};
use model::call::Call;
use model::fault::Fault;
use space::memory::Memory;
use std::alloc::{AllocError, Global};

/// Makes a call. Calls that are not built yet are bad records.
pub fn respond(memory: &mut Memory, call: Call) -> Result<u32, Fault>
    ensures answer { result ≡ call_answer call (memory_state memory.old) }
    ensures state { memory_state memory.new ≡ call_after call (memory_state memory.old) }
{
    match call {
        Call::SetUp {
            cores,
            frames,
            nodes,
            epoch,
        } => Ok(memory.set_up(cores, frames, nodes, epoch)?),
        Call::Map {
            core,
            label,
            first,
            count,
        } => Ok(memory.map(core, label, first, count)?),
        Call::Look { page } => Ok(memory.look(page)?),
        // Each by its name, so that a call more is not forgotten here.
        Call::Touch { .. }
        | Call::Share { .. }
        | Call::Begin { .. }
        | Call::Acknowledge { .. }
        | Call::Finish { .. }
        | Call::Flush { .. } => Err(Fault::BadRecord),
    }
}

// What sixteen bytes ask for, done or refused.
#[tactic(auto, unfolding(crate::specs::Playing::record_outcome, crate::specs::Playing::record_after))]
fn outcome_of(memory: &mut Memory, bytes: &[u8; RECORD]) -> Result<u32, Fault>
    ensures answer { result ≡ record_outcome (memory_state memory.old) bytes.now }
    ensures state { memory_state memory.new ≡ record_after (memory_state memory.old) bytes.now }
{
    respond(memory, read(bytes)?)
}

// Answers one record. The reply repeats its kind and core bytes.
fn answer_record(memory: &mut Memory, bytes: &[u8; RECORD]) -> Reply
    ensures reply { result ≡ reply_to (memory_state memory.old) bytes.now }
    ensures state { memory_state memory.new ≡ record_after (memory_state memory.old) bytes.now }
{
    let [kind, core, ..] = *bytes;
    let outcome = outcome_of(memory, bytes);
    Reply {
        kind,
        core,
        outcome,
        epoch: memory.epoch(),
    }
}

/// Plays a script of any bytes: one reply for each record, and one more for a rest of 1 to 15 bytes.
pub fn play(heap: Global, memory: &mut Memory, script: &[u8]) -> Result<Vec<Reply>, AllocError>
    ensures replies { IfOk result (λ v. v.items ≡ replies script.now (memory_state memory.old)) }
    ensures state { OnOk result (memory_state memory.new ≡ state_at_end script.now (memory_state memory.old)) }
{
    let (records, rest) = script.as_chunks();
    let mut out = Vec::new(heap);
    for bytes in records {
        out.push(answer_record(memory, bytes))?;
    }
    if !rest.is_empty() {
        out.push(Reply {
            kind: 255,
            core: 0,
            outcome: Err(Fault::BadRecord),
            epoch: memory.epoch(),
        })?;
    }
    Ok(out)
}

/// The bytes of replies, one after another.
pub fn bytes_of(heap: Global, replies: &[Reply]) -> Result<Vec<u8>, AllocError>
    ensures { IfOk result (λ v. v.items ≡ all_bytes replies.now) }
{
    let mut out = Vec::new(heap);
    for reply in replies {
        out.extend_from_slice(&reply.to_bytes())?;
    }
    Ok(out)
}

/// The bytes that a script is answered by a new memory.
pub fn answers_to(heap: Global, script: &[u8]) -> Result<Vec<u8>, AllocError>
    ensures { IfOk result (λ v. v.items ≡ answer_bytes script.now before_set_up) }
{
    let mut memory = Memory::new();
    let replies = play(heap, &mut memory, script)?;
    bytes_of(heap, replies.as_slice())
}
