// Request W4: TNL of a channel for a scan, from the channel's pairs and the scan's own shelf temperature.

#![tactic(auto)]

ghost use Rattle.std.specs.Prelude.{◌≡◌, ◌<◌, ◌≤ℤ◌, ◌<ℤ◌};
ghost use Rattle.instrument.specs.Instrument.{channels};
ghost use Rattle.integers.specs.Rounding.{r};
ghost use Rattle.std.specs.Int.Signed.{le_z};
ghost use Rattle.table.specs.Settings.{pairs, settings_of};
ghost use Rattle.table.specs.Opening.{ages};
ghost use Rattle.nonlinearity.specs.Interpolation.{on_line, tnl_of};
ghost use Rattle.nonlinearity.specs.Steps.{ShelfPairRange};

use table::{SHELF_PAIRS, ShelfPair, Table, TableBytes};

// Between two pairs: the straight line's value, one fraction, rounded once.
fn on_line(low: ShelfPair, high: ShelfPair, shelf: i64) -> i64
    requires { ShelfPairRange low × ShelfPairRange high × (low.shelf <ℤ shelf) × (shelf ≤ℤ high.shelf) }
    ensures { result ≡ r (on_line low high shelf).num (on_line low high shelf).den }
{
    let weighted = low.tnl * (high.shelf - shelf) + high.tnl * (shelf - low.shelf);
    integers::round(weighted, high.shelf - low.shelf)
}

// Whether this shelf temperature is at most that of pair j.
fn is_up_to(table: &TableBytes, c: usize, j: usize, shelf: i64) -> bool
    requires { (c < channels) × (j < pairs) }
    ensures { result ≡ le_z shelf (((settings_of ages table.now).channel c).pair j).shelf }
{
    shelf <= table::pair_of(table, c, j).shelf
}

// TNL of channel c, counted from 0, at this shelf temperature. Up to the first pair and above the last it is the end value.
pub fn tnl_of(table: &Table, c: usize, shelf: i64) -> i64
    requires { c < channels }
    ensures { result ≡ tnl_of ((settings_of ages table.now.bytes).channel c).pair shelf }
{
    let table = table.bytes();
    match (0..SHELF_PAIRS).find(|&j| is_up_to(table, c, j, shelf)) {
        Some(0) => table::pair_of(table, c, 0).tnl,
        Some(j) => {
            let low = table::pair_of(table, c, j - 1);
            let high = table::pair_of(table, c, j);
            on_line(low, high, shelf)
        }
        None => table::pair_of(table, c, SHELF_PAIRS - 1).tnl,
    }
}
