ghost use Rattle.std.specs.Prelude.{◌≡◌, ◌^◌, ◌<◌};
ghost use Rattle.pin_set.specs.Costs.{is_moved, move_cost};
ghost use Rattle.pin_set.specs.Rows.{rows_pins, rows_unplaced, rows_moved, rows_spent, rows_score};
ghost use Rattle.cert_check.specs.Ranges.{AreFew};

use lb_types::Place;
use lb_types_pins::{PinKind, Row};
use pin_set::Score;

/// The score of the rows. One walk over them for each of its four sums.
pub(crate) fn score_of(rows: &[Row]) -> Score
    requires { AreFew rows.now }
    ensures { result ≡ rows_score rows.now }
{
    Score {
        pins: pins(rows),
        unplaced: unplaced(rows),
        moved: moved(rows),
        cost: spent(rows),
    }
}

fn pins(rows: &[Row]) -> u64
    requires { rows_pins rows.now < 2 ^ 64 }
    ensures { result ≡ rows_pins rows.now }
{
    rows.iter().map(|row| u64::from(row.count)).sum()
}

fn unplaced(rows: &[Row]) -> u64
    requires { rows_unplaced rows.now < 2 ^ 64 }
    ensures { result ≡ rows_unplaced rows.now }
{
    rows.iter()
        .map(|row| if row.new_place.is_none() {
            u64::from(row.count)
        } else {
            0
        })
        .sum()
}

fn moved(rows: &[Row]) -> u64
    requires { rows_moved rows.now < 2 ^ 64 }
    ensures { result ≡ rows_moved rows.now }
{
    rows.iter()
        .map(|row| if is_moved(&row.kind, row.new_place) {
            u64::from(row.count)
        } else {
            0
        })
        .sum()
}

fn spent(rows: &[Row]) -> u64
    requires { rows_spent rows.now < 2 ^ 64 }
    ensures { result ≡ rows_spent rows.now }
{
    rows.iter()
        .map(|row| u64::from(row.count) * u64::from(move_cost(&row.kind, row.new_place)))
        .sum()
}

/// Whether a pin of this kind that goes there changes its place.
fn is_moved(kind: &PinKind, to: Place) -> bool
    ensures { result ≡ is_moved kind.now to }
{
    kind.place != to
}

/// What it costs to move a pin of this kind there: nothing where it is there.
pub(crate) fn move_cost(kind: &PinKind, to: Place) -> u16
    ensures { result ≡ move_cost kind.now to }
{
    if is_moved(kind, to) { kind.cost } else { 0 }
}
