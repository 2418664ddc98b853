ghost use Rattle.std.specs.Prelude.{◌≡◌, Some};
ghost use Rattle.model.specs.Pages.{fresh, closing_by, mapped_state, look_answer, Proper};

use super::cores::CoreSet;

// Plain numbers: a call comes with any, and is turned down for those that there are not.
pub type Page = u32;

pub type Frame = u16;

pub type Core = u8;

pub type Label = u8;

pub type Epoch = u32;

/// What a page in use has. With an owner it is closing, without one it is mapped.
#[derive(Clone, Copy, PartialEq, Eq, Debug)]
pub struct Mapping {
    pub label: Label,
    /// The core that is unmapping the page.
    pub owner: Option<Core>,
    pub frame: Option<Frame>,
    /// The cores that may have a translation for the page.
    pub cores: CoreSet,
}

/// The state of one page: what it has in use, or nothing where it is vacant.
pub type PageState = Option<Mapping>;

/// Whether a core is unmapping a page.
pub fn is_closing(state: PageState) -> bool
    ensures { result ≡ closing_by state }
{
    state.is_some_and(|mapping| mapping.is_closing())
}

/// Whether a page is in use and no core is unmapping it.
pub fn is_mapped(state: PageState) -> bool
    ensures { result ≡ mapped_state state }
{
    state.is_some_and(|mapping| mapping.is_mapped())
}

/// What a look answers of a page in any state, 0 of a vacant one.
pub fn answer(state: PageState) -> u32
    requires { Proper state }
    ensures { result ≡ look_answer state }
{
    state.map_or(0, |mapping| mapping.answer())
}

impl Mapping {
    /// Mapped with a label, no frame and an empty core set.
    pub fn fresh(label: Label) -> Mapping
        ensures { result ≡ fresh label }
    {
        Mapping {
            label,
            owner: None,
            frame: None,
            cores: CoreSet::empty(),
        }
    }

    /// Whether a core is unmapping the page.
    pub fn is_closing(self) -> bool
        ensures { result ≡ closing_by (Some self) }
    {
        self.owner.is_some()
    }

    /// Whether no core is unmapping the page.
    pub fn is_mapped(self) -> bool
        ensures { result ≡ mapped_state (Some self) }
    {
        self.owner.is_none()
    }

    /// What a look answers: label + 256 × frame + 16,777,216 × (owner + 1), an absent part counting 0.
    pub fn answer(self) -> u32
        requires { Proper (Some self) }
        ensures { result ≡ look_answer (Some self) }
    {
        let frame = self.frame.map_or(0, |frame| frame as u32);
        let owner = self.owner.map_or(0, |owner| owner as u32 + 1);
        self.label as u32 + 256 * frame + 16_777_216 * owner
    }
}
