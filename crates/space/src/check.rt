ghost use Rattle.std.specs.Prelude.{◌≡◌, ◌+◌, ◌-◌, Bool, None, IfOk, nat_lt};
ghost use Rattle.model.specs.declared.fault.Reason.TheVariants.{CoreNotInService, BadRange, NoLabel};
ghost use Rattle.model.specs.Pages.{PageState};
ghost use Rattle.model.specs.Flat.{lowest};
ghost use Rattle.tree.specs.Nodes.{shows};
ghost use Rattle.tree.specs.Search.{Tells, found_at};
ghost use Rattle.space.specs.Checks.{unless, unless_found, good_range, set_up_check, numbers_check, vacant_check, map_check, look_check, says, IsRange};

use super::space::Space;
use counter::counter::Counter;
use counter::kind::Nodes;
use model::fault::{Reason, SpaceFault};
use model::page::{Core, Label, Mapping, Page};
use model::sizes::{CORES, FRAMES, NODES, PAGES};
use tree::pages::Pages;

// A call that the space turns down, with no place.
fn refused(reason: Reason) -> SpaceFault
    ensures { result ≡ SpaceFault.Refused reason None }
{
    SpaceFault::Refused {
        reason,
        place: None,
    }
}

// Turns a call down for a reason unless all is fine.
pub(super) fn refuse_unless(fine: bool, reason: Reason) -> Result<(), SpaceFault>
    ensures { result ≡ unless fine reason }
{
    if fine { Ok(()) } else { Err(refused(reason)) }
}

// The pages of a range: at least one, and none past the last. The end may pass 32 bits.
pub(super) fn check_range(first: Page, count: u32) -> Result<Pages, SpaceFault>
    ensures check { says result ≡ unless (good_range first count) BadRange }
    ensures pages { IfOk result (IsRange first count) }
{
    match first.checked_add(count) {
        Some(last) if first < last && last <= PAGES => Ok(Pages::new(first, last)),
        _ => Err(refused(Reason::BadRange)),
    }
}

pub(super) fn check_page(page: Page) -> Result<(), SpaceFault>
    ensures { result ≡ look_check page }
{
    refuse_unless(page < PAGES, Reason::BadRange)
}

// All checks of a set up.
pub(super) fn check_set_up(cores: u8, frames: u32, nodes: u32) -> Result<(), SpaceFault>
    ensures { result ≡ set_up_check cores frames nodes }
{
    let some_cores = cores > 0 && cores <= CORES;
    let some_frames = frames > 0 && frames as usize <= FRAMES;
    let some_nodes = nodes > 0 && nodes as usize <= NODES;
    refuse_unless(some_cores && (some_frames && some_nodes), Reason::BadSetUp)
}

impl<N: Counter<Nodes> + Drop> Space<N> {
    fn check_core(&self, core: Core) -> Result<(), SpaceFault>
        ensures { result ≡ unless (nat_lt core self.now.cores) CoreNotInService }
    {
        refuse_unless(core < self.cores, Reason::CoreNotInService)
    }

    // What a map asks of the numbers that it came with: the pages of its range.
    fn check_numbers(
        &self,
        core: Core,
        label: Label,
        first: Page,
        count: u32,
    ) -> Result<Pages, SpaceFault>
        ensures check { says result ≡ numbers_check self.now.cores core label first count }
        ensures pages { IfOk result (IsRange first count) }
    {
        self.check_core(core)?;
        let pages = check_range(first, count)?;
        refuse_unless(label > 0, Reason::NoLabel)?;
        Ok(pages)
    }

    // Refuses the call at the lowest page of the range that is in use and fits.
    fn check_none<F: Fn(Mapping) -> bool>(
        &self,
        pages: Pages,
        fits: F,
        reason: Reason,
    ) -> Result<(), SpaceFault>
        requires { F.IsAlwaysCallable fits }
        ensures { (test : PageState → Bool) → Tells (F.post fits) test → result ≡ unless_found (lowest (found_at test self.now.tree) pages.first (pages.last - pages.first)) reason }
    {
        match self.tree.lowest(pages, fits) {
            Some(page) => Err(SpaceFault::Refused {
                reason,
                place: Some(page),
            }),
            None => Ok(()),
        }
    }

    // What a map asks of the pages of its range.
    fn check_vacant(&self, pages: Pages) -> Result<(), SpaceFault>
        ensures { result ≡ vacant_check pages.first (pages.last - pages.first) (shows self.now.tree) }
    {
        self.check_none(pages, |mapping| mapping.is_closing(), Reason::Closing)?;
        self.check_none(pages, |mapping| mapping.is_mapped(), Reason::Mapped)
    }

    // All checks of a map, in their order.
    pub(super) fn check_map(
        &self,
        core: Core,
        label: Label,
        first: Page,
        count: u32,
    ) -> Result<Pages, SpaceFault>
        ensures check { says result ≡ map_check core label first count self.now.cores self.now.tree }
        ensures pages { IfOk result (IsRange first count) }
    {
        let pages = self.check_numbers(core, label, first, count)?;
        self.check_vacant(pages)?;
        self.tree.check_room(pages)?;
        Ok(pages)
    }
}
