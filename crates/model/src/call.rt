use super::page::{Core, Epoch, Label, Page};
use std::fmt;

/// A call that a core makes of the memory system, with whatever numbers it came with.
#[derive(Clone, Copy, PartialEq, Eq, Debug)]
pub enum Call {
    SetUp {
        cores: u8,
        frames: u32,
        nodes: u32,
        epoch: Epoch,
    },
    Map {
        core: Core,
        label: Label,
        first: Page,
        count: u32,
    },
    Touch {
        core: Core,
        page: Page,
    },
    Share {
        core: Core,
        source: Page,
        target: Page,
    },
    Begin {
        core: Core,
        first: Page,
        count: u32,
    },
    Acknowledge {
        core: Core,
        owner: u32,
    },
    Finish {
        core: Core,
    },
    Flush {
        core: Core,
    },
    Look {
        page: Page,
    },
}

impl fmt::Display for Call {
    fn fmt<W: fmt::Write>(&self, f: &mut fmt::Formatter<W>) -> fmt::Result {
        match *self {
            Call::SetUp {
                cores,
                frames,
                nodes,
                epoch,
            } => write!(
                f,
                "set up with cores {cores}, frames {frames}, nodes {nodes}, epoch {epoch}"
            ),
            Call::Map {
                core,
                label,
                first,
                count,
            } => write!(
                f,
                "core {core} maps from page {first}, count {count}, label {label}"
            ),
            Call::Touch { core, page } => write!(f, "core {core} touches page {page}"),
            Call::Share {
                core,
                source,
                target,
            } => write!(f, "core {core} shares page {source} with page {target}"),
            Call::Begin { core, first, count } => write!(
                f,
                "core {core} begins to unmap from page {first}, count {count}"
            ),
            Call::Acknowledge { core, owner } => write!(
                f,
                "core {core} acknowledges to core {owner}"
            ),
            Call::Finish { core } => write!(f, "core {core} finishes its unmapping"),
            Call::Flush { core } => write!(f, "core {core} flushes"),
            Call::Look { page } => write!(f, "look at page {page}"),
        }
    }
}
