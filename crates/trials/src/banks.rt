ghost use Rattle.std.specs.Prelude.{◌≡◌, ◌<◌, Some, None};

use bank::bank::Bank;
use bank::inverted_table::InvertedTable;
use bank::page_tables::PageTables;
use bank::pair::Pair;
use bank::reload::ReloadBuffer;
use model::page::{Frame, Page};

/// What a bank shows at three moments.
#[derive(Clone, Copy, PartialEq, Eq, Debug)]
pub struct Shown {
    pub installed: Option<Frame>,
    pub replaced: Option<Frame>,
    pub dropped: Option<Frame>,
}

/// Installs a frame for a pair, then another, then drops the pair: proved of any bank from its meaning alone.
pub fn install_twice_and_drop<B: Bank>(
    bank: &mut B,
    pair: Pair,
    first: Frame,
    second: Frame,
) -> Shown
    ensures installed { result.installed ≡ Some first }
    ensures replaced { result.replaced ≡ Some second }
    ensures dropped { result.dropped ≡ None }
{
    bank.install(pair, first);
    let installed = bank.show(pair);
    bank.install(pair, second);
    let replaced = bank.show(pair);
    bank.drop_page(pair);
    Shown {
        installed,
        replaced,
        dropped: bank.show(pair),
    }
}

/// At the page tables, at the inverted table, and at a reload buffer over a reload buffer over that.
pub fn at_each_bank(page: Page) -> (Shown, Shown, Shown)
    requires { page < 262144 }
    ensures page_tables { result.0.replaced ≡ Some 9 }
    ensures inverted_table { result.1.replaced ≡ Some 9 }
    ensures two_buffers { result.2.replaced ≡ Some 9 }
{
    let pair = Pair::new(3, page);
    let mut tables = PageTables::new();
    let mut inverted = InvertedTable::new();
    let mut buffers = ReloadBuffer::new(ReloadBuffer::new(InvertedTable::new()));
    (
        install_twice_and_drop(&mut tables, pair, 7, 9),
        install_twice_and_drop(&mut inverted, pair, 7, 9),
        install_twice_and_drop(&mut buffers, pair, 7, 9),
    )
}

#[cfg(test)]
mod tests {
    use super::*;

    // Ten pages of core 2, 256 apart, so that they meet in one entry of a table; then what each shows.
    fn fill<B: Bank>(bank: &mut B) {
        for i in 0..10 {
            bank.install(Pair::new(2, 5 + 256 * i), 100 + i as u16);
        }
    }

    #[test]
    fn a_newcomer_displaces_the_occupant(rt: HostRuntime) {
        let mut tables = PageTables::new();
        fill(&mut tables);
        assert_eq!(rt; tables.show(Pair::new(2, 5 + 256 * 9)), Some(109));
        assert_eq!(rt; tables.show(Pair::new(2, 5 + 256 * 8)), None);
        tables.drop_page(Pair::new(2, 5));
        assert_eq!(rt;
            tables.show(Pair::new(2, 5 + 256 * 9)),
            Some(109),
            "the entry has another page"
        );
        let mut inverted = InvertedTable::new();
        fill(&mut inverted);
        inverted.install(Pair::new(1, 21 + 256 * 9), 55);
        assert_eq!(rt;
            inverted.show(Pair::new(2, 5 + 256 * 9)),
            None,
            "another core's page has the entry"
        );
        assert_eq!(rt; inverted.show(Pair::new(1, 21 + 256 * 9)), Some(55));
    }

    #[test]
    fn a_buffer_displaces_in_turn(rt: HostRuntime) {
        let mut bank = ReloadBuffer::new(PageTables::new());
        fill(&mut bank);
        assert_eq!(rt;
            bank.show(Pair::new(2, 5)),
            None,
            "displaced by the first, then below by the second"
        );
        assert_eq!(rt; bank.show(Pair::new(2, 5 + 256)), Some(101), "below");
        assert_eq!(rt;
            bank.show(Pair::new(2, 5 + 256 * 2)),
            Some(102),
            "in the buffer"
        );
        assert_eq!(rt; bank.show(Pair::new(2, 5 + 256 * 9)), Some(109));
        bank.drop_page(Pair::new(2, 5 + 256));
        assert_eq!(rt; bank.show(Pair::new(2, 5 + 256)), None);
        bank.clear();
        assert_eq!(rt; bank.show(Pair::new(2, 5 + 256 * 9)), None);
    }
}
