ghost use Rattle.std.specs.Prelude.{◌≡◌, Some};
ghost use Rattle.statement.specs.Sights.{frame_told, sight_of};
ghost use Rattle.statement.specs.Words.{sight_words};

use std::fmt;

// No mapping: it is read from the answer alone, which does not tell the core set.
/// What an accepted look tells of a page.
#[derive(Clone, Copy)]
pub enum Sight {
    Vacant,
    Mapped {
        label: u8,
        frame: Option<u16>,
    },
    Closing {
        owner: u8,
        label: u8,
        frame: Option<u16>,
    },
}

/// Reads a look's answer: label + 256 × frame + 16,777,216 × (owner + 1), an absent part counting 0.
impl From<u32> for Sight {
    ghost from_gives = { λ a r. r ≡ sight_of a };

    fn from(answer: u32) -> Sight {
        if answer == 0 {
            return Sight::Vacant;
        }
        let label = (answer % 256) as u8;
        let frame = frame_told((answer / 256 % 65_536) as u16);
        let owner = (answer / 16_777_216) as u8;
        if owner == 0 {
            return Sight::Mapped { label, frame };
        }
        Sight::Closing {
            owner: owner - 1,
            label,
            frame,
        }
    }
}

// Frames are numbered from 1, so that 0 is none.
fn frame_told(number: u16) -> Option<u16>
    ensures { result ≡ frame_told number }
{
    (number != 0).then_some(number)
}

impl fmt::Display for Sight {
    ghost output = { λ s. Some (sight_words s) };

    fn fmt<W: fmt::Write>(&self, f: &mut fmt::Formatter<W>) -> fmt::Result {
        match *self {
            Sight::Vacant => write!(f, "vacant"),
            Sight::Mapped { label, frame: None } => write!(f, "mapped, label {label}"),
            Sight::Mapped {
                label,
                frame: Some(frame),
            } => write!(f, "mapped, label {label}, frame {frame}"),
            Sight::Closing {
                owner,
                label,
                frame: None,
            } => write!(f, "closing under core {owner}, label {label}"),
            Sight::Closing {
                owner,
                label,
                frame: Some(frame),
            } => write!(
                f,
                "closing under core {owner}, label {label}, frame {frame}"
            ),
        }
    }
}
