// Plays a script of records on a new memory, writes the answers if asked, and states in words what came of it.
#![tactic(auto)]

use command::failure::Failure;
use command::options::{Channel, Options};
use script::answer::Reply;
use script::player::{bytes_of, play};
use space::memory::Memory;
use statement::statement::Statement;
use statement::summary::Summary;
use std::io::{Read, Write};
use std::{env, fs, io};

fn main(rt: HostRuntime) -> Result<(), Failure> {
    run(&rt)
}

fn run(rt: &HostRuntime) -> Result<(), Failure> {
    let words = env::args(rt)?.skip(1).collect::<Vec<String>>(rt.alloc())?;
    let Options {
        script,
        answers,
        brief,
    } = Options::try_from(words)?;
    let bytes = read_script(rt, script)?;
    let mut memory = Memory::new();
    let replies = play(rt.alloc(), &mut memory, bytes.as_slice())?;
    let summary = Summary::new(rt.alloc(), replies.as_slice(), &memory)?;
    let aside = matches!(answers, Some(Channel::Standard));
    if let Some(channel) = answers {
        write_answers(rt, channel, replies.as_slice())?;
    }
    let statement = Statement {
        script: bytes.as_slice(),
        replies: replies.as_slice(),
        summary: &summary,
        brief,
    };
    print_statement(rt, &statement, aside)
}

// Prints a statement on the standard output, or on the standard error if the answers have the standard output.
// One `if` where the two streams part: a writer of either kind would be no plainer.
fn print_statement(
    rt: &HostRuntime,
    statement: &Statement<'_>,
    aside: bool,
) -> Result<(), Failure> {
    let text = format!(in rt.alloc(); "{statement}")?;
    if aside {
        rt.eprint(text.as_str())?;
    } else {
        rt.print(text.as_str())?;
    }
    Ok(())
}

fn read_script(rt: &HostRuntime, channel: Channel) -> Result<Vec<u8>, Failure> {
    let read = match &channel {
        Channel::Standard => read_input(rt),
        Channel::File(name) => fs::read(rt, name.as_str()),
    };
    read.map_err(|cause| Failure::Unread { channel, cause })
}

fn read_input(rt: &HostRuntime) -> io::Result<Vec<u8>> {
    let mut bytes = Vec::new(rt.alloc());
    rt.stdin().read_to_end(&mut bytes)?;
    Ok(bytes)
}

fn write_answers(rt: &HostRuntime, channel: Channel, replies: &[Reply]) -> Result<(), Failure> {
    let bytes = bytes_of(rt.alloc(), replies)?;
    let written = match &channel {
        Channel::Standard => rt.stdout().write_all(bytes.as_slice()),
        Channel::File(name) => fs::write(rt, name.as_str(), bytes.as_slice()),
    };
    written.map_err(|cause| Failure::Unwritten { channel, cause })
}
