use model::page::{Frame, Page};

/// A page with the frame that a core has for it. Where it stands tells the core.
#[derive(Clone, Copy)]
pub struct Translation {
    pub page: Page,
    pub frame: Frame,
}
