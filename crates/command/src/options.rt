ghost use Rattle.std.specs.Prelude.{◌≡◌, Some, map, string_bytes};
ghost use Rattle.command.specs.Arguments.{is_flag, place_named, place_of, places_of, places_read, one_more, shown, wish_read, wished};

use std::fmt;

/// Where bytes come from or go to. No Option of a name, since the standard one is a channel and not the lack of one.
#[derive(Drop)]
pub enum Channel {
    Standard,
    File(String),
}

/// What the program is asked to do.
#[derive(Drop)]
pub struct Options {
    pub script: Channel,
    pub answers: Option<Channel>,
    /// Whether only the summary is stated.
    pub brief: bool,
}

/// Words that ask for nothing that the program does.
#[derive(Clone, Copy)]
pub struct Misuse;

// The channels named so far: the script's first, then that for the answers.
type Named = Option<(Channel, Option<Channel>)>;

/// The channel of a word: a hyphen alone is the standard one.
impl From<String> for Channel {
    ghost from_gives = { λ w r. place_of r ≡ place_named (string_bytes w) };

    fn from(word: String) -> Channel {
        if word.as_str() == "-" {
            return Channel::Standard;
        }
        Channel::File(word)
    }
}

impl fmt::Display for Channel {
    ghost output = { λ c. Some (shown (place_of c)) };

    fn fmt<W: fmt::Write>(&self, f: &mut fmt::Formatter<W>) -> fmt::Result {
        match self {
            Channel::Standard => write!(f, "-"),
            Channel::File(name) => write!(f, "{name}"),
        }
    }
}

/// Reads the words that the program is started with, its own name left out.
impl TryFrom<Vec<String>> for Options {
    type Error = Misuse;

    ghost try_from_gives = { λ ws r. wish_read r ≡ wished (map string_bytes ws.items) };

    #[tactic(auto, using(crate::proofs::Reading::words_read))]
    fn try_from(words: Vec<String>) -> Result<Options, Misuse> {
        let mut named = None;
        let mut brief = false;
        for word in words {
            if word.as_str() == "--brief" {
                brief = true;
            } else if is_flag(word.as_str()) {
                return Err(Misuse);
            } else {
                named = with(named, Channel::from(word))?;
            }
        }
        // Without a script there is nothing to do.
        let (script, answers) = named.ok_or(Misuse)?;
        Ok(Options {
            script,
            answers,
            brief,
        })
    }
}

// The first channel is the script's, the second is for the answers, and there is no third.
fn with(named: Named, channel: Channel) -> Result<Named, Misuse>
    ensures { places_read result ≡ one_more (places_of named) (place_of channel) }
{
    match named {
        None => Ok(Some((channel, None))),
        Some((script, None)) => Ok(Some((script, Some(channel)))),
        Some((_, Some(_))) => Err(Misuse),
    }
}

// Whether a word asks for something, in place of naming a channel.
fn is_flag(word: &str) -> bool
    ensures { result ≡ is_flag word.now }
{
    word.starts_with("--")
}
