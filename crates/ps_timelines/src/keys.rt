//! What the series of the lanes say, and the arrows between them.

ghost use Rattle.std.specs.Prelude.{◌≡◌, ◌<◌, ◌^◌, ◌++◌, take, length, OnOk};
ghost use Rattle.ps_timelines.specs.Keys as keys;
ghost use Rattle.ps_timelines.specs.Keys.{arrow_row_text, key_text, legend_text, row_text, sample_text};

use crate::arrows::{Relation, append_arrow_key};
use crate::lanes::append_place;
use crate::series::{Series, append_series_title, append_series_word};
use ps_views::append;
use std::alloc::AllocError;

/// A sample of what a series looks like.
fn sample(series: Series) -> &'static [u8]
    ensures { result.now ≡ keys.sample series }
{
    match series {
        Series::Ready | Series::Lock | Series::Condition | Series::Join => b"M0 0h24",
        Series::Steps => b"M0-8h24v14h-24z",
        Series::Owner => b"M0-2h24v4h-24z",
        Series::Print => b"M12 3l4-6h-8z",
        Series::Error => b"M4-8l16 16m0-16l-16 16",
    }
}

/// Appends the sample of a series.
#[tactic(auto, unfolding(crate::specs::Keys::sample_text))]
fn append_sample(series: Series, to: &mut Vec<u8>) -> Result<(), AllocError>
    ensures appended { OnOk result (to.new.items ≡ to.old.items ++ sample_text series) }
    ensures front { take (length to.old.items) to.new.items ≡ to.old.items }
{
    append(b"<path class=\"", to)?;
    append_series_word(series, to)?;
    append(b"\" d=\"", to)?;
    append(sample(series), to)
}

/// Appends the key of a series.
#[tactic(auto, unfolding(crate::specs::Keys::key_text))]
fn append_key(x: usize, y: usize, series: Series, to: &mut Vec<u8>) -> Result<(), AllocError>
    ensures appended { OnOk result (to.new.items ≡ to.old.items ++ key_text x y series) }
    ensures front { take (length to.old.items) to.new.items ≡ to.old.items }
{
    append_place(x, y, to)?;
    append_sample(series, to)?;
    append(b"\"/><text x=\"34\" y=\"4\">", to)?;
    append_series_title(series, to)?;
    append(b"</text></g>\n", to)
}

/// Appends a row of keys.
#[tactic(auto, unfolding(crate::specs::Keys::row_text))]
fn append_row(
    y: usize,
    first: (Series, Series),
    last: (Series, Series),
    to: &mut Vec<u8>,
) -> Result<(), AllocError>
    ensures appended { OnOk result
        (to.new.items ≡ to.old.items ++ row_text y first.0 first.1 last.0 last.1) }
    ensures front { take (length to.old.items) to.new.items ≡ to.old.items }
{
    append_key(150, y, first.0, to)?;
    append_key(400, y, first.1, to)?;
    append_key(650, y, last.0, to)?;
    append_key(900, y, last.1, to)
}

/// Appends the row of the arrows.
#[tactic(auto, unfolding(crate::specs::Keys::arrow_row_text))]
fn append_arrow_row(y: usize, to: &mut Vec<u8>) -> Result<(), AllocError>
    ensures appended { OnOk result (to.new.items ≡ to.old.items ++ arrow_row_text y) }
    ensures front { take (length to.old.items) to.new.items ≡ to.old.items }
{
    append_arrow_key(150, y, Relation::Starts, to)?;
    append_arrow_key(400, y, Relation::Joins, to)?;
    append_arrow_key(650, y, Relation::Notifies, to)
}

/// Appends what all series and arrows say, below lanes that are so high together.
#[tactic(auto, unfolding(crate::specs::Keys::legend_text))]
pub(crate) fn append_legend(height: usize, to: &mut Vec<u8>) -> Result<(), AllocError>
    requires { height < 2 ^ 63 }
    ensures appended { OnOk result (to.new.items ≡ to.old.items ++ legend_text height) }
    ensures front { take (length to.old.items) to.new.items ≡ to.old.items }
{
    let waits = (Series::Lock, Series::Condition);
    append_row(height + 138, (Series::Steps, Series::Ready), waits, to)?;
    let deeds = (Series::Print, Series::Error);
    append_row(height + 162, (Series::Join, Series::Owner), deeds, to)?;
    append_arrow_row(height + 186, to)
}
