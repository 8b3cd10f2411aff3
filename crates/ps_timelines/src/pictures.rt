//! The picture of a run: its title, the steps below the lanes, the lanes with the arrows between
//! them, and what all that says.

ghost use Rattle.std.specs.Prelude.{◌≡◌, ◌+◌, ◌*◌, ◌≤◌, ◌<◌, ◌^◌, ◌++◌, take, length, OnOk, OnErr};
ghost use Rattle.ps_timelines.specs.Pictures as pictures;
ghost use Rattle.ps_timelines.specs.Pictures.{all_arrows_text, axis_text, heads_text, scale_text};
ghost use Rattle.ps_timelines.specs.Pictures.{head_text, lanes_text, picture, size_text};
ghost use Rattle.ps_timelines.specs.Pictures.{style_text, tick_at, tick_text, ticks_text, title_text};
ghost use Rattle.ps_timelines.specs.Pictures.{titled_text};

use crate::arrows::{Arrow, Relation, append_arrows};
use crate::bytes::{append_between, append_escaped};
use crate::keys::append_legend;
use crate::lanes::{
    FIRST_LANE, LANES_LEFT, Lane, NEXT_LANE, Scale, append_lane, append_place, place,
};
use ps_views::append;
use std::alloc::{AllocError, Global};

/// What may stand between two ticks, from the least on. At most ten of the last fit a run.
const UNITS: [u32; 27] = [
    1,
    2,
    5,
    10,
    20,
    50,
    100,
    200,
    500,
    1_000,
    2_000,
    5_000,
    10_000,
    20_000,
    50_000,
    100_000,
    200_000,
    500_000,
    1_000_000,
    2_000_000,
    5_000_000,
    10_000_000,
    20_000_000,
    50_000_000,
    100_000_000,
    200_000_000,
    500_000_000,
];
/// How many ticks there are at most, with the one at 0.
const TICKS: usize = 11;

/// A run, as its picture tells it.
#[derive(Clone, Copy)]
pub struct Timeline<'a> {
    /// What the program's file is called.
    pub file: &'a [u8],
    /// How many steps the run has.
    pub steps: u32,
    /// How it ended, in words.
    pub outcome: &'a [u8],
    /// A lane for each context, by rising identifier.
    pub lanes: &'a [Lane],
    /// From who starts a context, joins it or notifies it, to that context. Of a kind that has more
    /// than 150 none are drawn.
    pub forks: &'a [Arrow],
    pub joins: &'a [Arrow],
    pub notifies: &'a [Arrow],
}

/// How the shapes look. Each of them differs from the others without its colour; the colours are
/// told apart by all kinds of sight (Okabe and Ito).
#[tactic(auto, unfolding(crate::specs::Pictures::style_text))]
fn style() -> &'static [u8]
    ensures { result.now ≡ style_text }
{
    b"<style>text{fill:#222;font:13px sans-serif}path{fill:none}\
.title{font-size:17px;font-weight:bold}.name{text-anchor:end;font-weight:bold}\
.count{text-anchor:end;font-size:11px}.tick{text-anchor:middle}.grid{stroke:#ddd}\
.steps{fill:#0072B2}.owner{fill:#000}.print{fill:#333}\
.ready{stroke:#56B4E9;stroke-width:2}.lock{stroke:#E69F00;stroke-width:9}\
.condition{stroke:#CC79A7;stroke-width:9;stroke-dasharray:2 2}\
.join{stroke:#999;stroke-width:2;stroke-dasharray:6 4}\
.error{stroke:#D55E00;stroke-width:4}.label{fill:#D55E00;font-weight:bold}\
.end{text-anchor:end}.fork{stroke:#333;stroke-width:1.5;marker-end:url(#k)}\
.joined{stroke:#333;stroke-width:1.5;stroke-dasharray:4 3;marker-end:url(#k)}\
.notify{stroke:#CC79A7;stroke-width:1.5;marker-end:url(#n)}\
.head{fill:#333}.notified{fill:#CC79A7}</style>\n"
}

/// The heads of arrows.
#[tactic(auto, unfolding(crate::specs::Pictures::heads_text))]
fn heads() -> &'static [u8]
    ensures { result.now ≡ heads_text }
{
    b"<defs><marker id=\"k\" markerUnits=\"userSpaceOnUse\" markerWidth=\"9\" markerHeight=\"9\" \
refX=\"8\" refY=\"4\" orient=\"auto\"><path class=\"head\" d=\"M0 0l8 4l-8 4z\"/></marker>\n\
<marker id=\"n\" markerUnits=\"userSpaceOnUse\" markerWidth=\"9\" markerHeight=\"9\" \
refX=\"8\" refY=\"4\" orient=\"auto\"><path class=\"notified\" d=\"M0 0l8 4l-8 4z\"/></marker>\
</defs>\n"
}

/// The first unit of which at most ten fit a run; 0, where there is none.
fn first_unit(units: &[u32], steps: u32) -> u32
    ensures { result ≡ pictures.first_unit steps units.now }
{
    for unit in units {
        if (steps as usize) < 11 * *unit as usize {
            return *unit;
        }
    }
    0
}

/// What stands between two ticks of a run.
#[tactic(auto, unfolding(crate::specs::Pictures::unit))]
fn unit(steps: u32) -> u32
    ensures { result ≡ pictures.unit steps }
{
    first_unit(&UNITS, steps)
}

/// Appends a tick.
#[tactic(auto, unfolding(crate::specs::Pictures::tick_text))]
fn append_tick(steps: u32, height: usize, step: u32, to: &mut Vec<u8>) -> Result<(), AllocError>
    requires { height < 2 ^ 63 }
    ensures appended { OnOk result (to.new.items ≡ to.old.items ++ tick_text steps height step) }
    ensures front { take (length to.old.items) to.new.items ≡ to.old.items }
{
    append_place(LANES_LEFT + place(steps, step), 64, to)?;
    append_between(b"<path class=\"grid\" d=\"M0 0V", height + 6, b"\"/>\n", to)?;
    append_between(b"<text class=\"tick\" y=\"", height + 22, b"\">", to)?;
    append_between(b"", step as usize, b"</text></g>\n", to)
}

/// Appends a tick by its number, where it doesn't lie behind the run.
#[tactic(auto, unfolding(crate::specs::Pictures::tick_at))]
fn append_tick_at(
    steps: u32,
    height: usize,
    index: usize,
    to: &mut Vec<u8>,
) -> Result<(), AllocError>
    requires height { height < 2 ^ 63 }
    requires index { index < 11 }
    ensures appended { OnOk result (to.new.items ≡ to.old.items ++ tick_at steps height index) }
    ensures front { take (length to.old.items) to.new.items ≡ to.old.items }
{
    let step = index * unit(steps) as usize;
    if step <= steps as usize {
        append_tick(steps, height, step as u32, to)
    } else {
        Ok(())
    }
}

/// Appends the ticks.
fn append_ticks(steps: u32, height: usize, to: &mut Vec<u8>) -> Result<(), AllocError>
    requires { height < 2 ^ 63 }
    ensures appended { OnOk result (to.new.items ≡ to.old.items ++ ticks_text steps height) }
    ensures front { take (length to.old.items) to.new.items ≡ to.old.items }
{
    for index in 0..TICKS {
        append_tick_at(steps, height, index, to)?;
    }
    Ok(())
}

/// Appends what the numbers below the lanes are.
#[tactic(auto, unfolding(crate::specs::Pictures::axis_text))]
fn append_axis(height: usize, to: &mut Vec<u8>) -> Result<(), AllocError>
    requires { height < 2 ^ 63 }
    ensures appended { OnOk result (to.new.items ≡ to.old.items ++ axis_text height) }
    ensures front { take (length to.old.items) to.new.items ≡ to.old.items }
{
    append_between(
        b"<text class=\"tick\" x=\"650\" y=\"",
        height + 106,
        b"\">steps</text>\n",
        to,
    )
}

/// Appends the lanes, one below another.
fn append_lanes(scale: Scale, lanes: &[Lane], to: &mut Vec<u8>) -> Result<(), AllocError>
    ensures appended { OnOk result
        (to.new.items ≡ to.old.items ++ lanes_text scale.steps 70 lanes.now) }
    ensures front { take (length to.old.items) to.new.items ≡ to.old.items }
{
    let mut y = FIRST_LANE;
    for lane in lanes {
        append_lane(scale, y, lane, to)?;
        y += NEXT_LANE;
    }
    Ok(())
}

/// Appends the title of a run.
#[tactic(auto, unfolding(crate::specs::Pictures::title_text))]
fn append_title(told: &Timeline<'_>, to: &mut Vec<u8>) -> Result<(), AllocError>
    ensures appended { OnOk result (to.new.items ≡ to.old.items ++ title_text told.now) }
    ensures front { take (length to.old.items) to.new.items ≡ to.old.items }
{
    append_escaped(told.file, to)?;
    append_between(b": ", told.steps as usize, b" steps, ", to)?;
    append_between(b"", told.lanes.len(), b" contexts, ", to)?;
    append_escaped(told.outcome, to)
}

/// Appends the title of a run between two texts.
#[tactic(auto, unfolding(crate::specs::Pictures::titled_text))]
fn append_titled(
    before: &[u8],
    told: &Timeline<'_>,
    behind: &[u8],
    to: &mut Vec<u8>,
) -> Result<(), AllocError>
    ensures appended { OnOk result
        (to.new.items ≡ to.old.items ++ titled_text before.now told.now behind.now) }
    ensures front { take (length to.old.items) to.new.items ≡ to.old.items }
{
    append(before, to)?;
    append_title(told, to)?;
    append(behind, to)
}

/// Appends the style sheet, and the heads of arrows.
fn append_style(to: &mut Vec<u8>) -> Result<(), AllocError>
    ensures appended { OnOk result (to.new.items ≡ to.old.items ++ (style_text ++ heads_text)) }
    ensures front { take (length to.old.items) to.new.items ≡ to.old.items }
{
    append(style(), to)?;
    append(heads(), to)
}

/// Appends the arrows of all kinds.
#[tactic(auto, unfolding(crate::specs::Pictures::all_arrows_text))]
fn append_all_arrows(told: &Timeline<'_>, to: &mut Vec<u8>) -> Result<(), AllocError>
    ensures appended { OnOk result (to.new.items ≡ to.old.items ++ all_arrows_text told.now) }
    ensures front { take (length to.old.items) to.new.items ≡ to.old.items }
{
    append_arrows(told.steps, Relation::Starts, told.forks, to)?;
    append_arrows(told.steps, Relation::Joins, told.joins, to)?;
    append_arrows(told.steps, Relation::Notifies, told.notifies, to)
}

/// Appends the ticks, and what they are.
#[tactic(auto, unfolding(crate::specs::Pictures::scale_text))]
fn append_scale(steps: u32, height: usize, to: &mut Vec<u8>) -> Result<(), AllocError>
    requires { height < 2 ^ 63 }
    ensures appended { OnOk result (to.new.items ≡ to.old.items ++ scale_text steps height) }
    ensures front { take (length to.old.items) to.new.items ≡ to.old.items }
{
    append_ticks(steps, height, to)?;
    append_axis(height, to)
}

/// Appends how large the picture is.
#[tactic(auto, unfolding(crate::specs::Pictures::size_text))]
fn append_size(height: usize, to: &mut Vec<u8>) -> Result<(), AllocError>
    requires { height < 2 ^ 63 }
    ensures appended { OnOk result (to.new.items ≡ to.old.items ++ size_text height) }
    ensures front { take (length to.old.items) to.new.items ≡ to.old.items }
{
    append_between(
        b"<svg xmlns=\"http://www.w3.org/2000/svg\" width=\"1180\" height=\"",
        height + 210,
        b"\" viewBox=\"0 0 1180 ",
        to,
    )?;
    append_between(b"", height + 210, b"\" role=\"img\">\n", to)
}

/// Appends what stands before the lanes, which are so high together.
#[tactic(auto, unfolding(crate::specs::Pictures::head_text))]
fn append_head(told: &Timeline<'_>, height: usize, to: &mut Vec<u8>) -> Result<(), AllocError>
    requires { height < 2 ^ 63 }
    ensures appended { OnOk result (to.new.items ≡ to.old.items ++ head_text told.now height) }
    ensures front { take (length to.old.items) to.new.items ≡ to.old.items }
{
    append_size(height, to)?;
    append_titled(b"<title>", told, b"</title>\n", to)?;
    append_style(to)?;
    append(
        b"<rect width=\"100%\" height=\"100%\" fill=\"#fff\"/>\n",
        to,
    )?;
    append_titled(
        b"<text x=\"150\" y=\"36\" class=\"title\">",
        told,
        b"</text>\n",
        to,
    )
}

/// Appends the parts of a picture.
#[tactic(auto, unfolding(crate::specs::Pictures::picture))]
fn append_parts(alloc: Global, told: &Timeline<'_>, to: &mut Vec<u8>) -> Result<(), AllocError>
    ensures appended { OnOk result (to.new.items ≡ to.old.items ++ picture told.now) }
    ensures front { take (length to.old.items) to.new.items ≡ to.old.items }
{
    let steps = told.steps;
    let height = NEXT_LANE * told.lanes.len();
    append_head(told, height, to)?;
    append_scale(steps, height, to)?;
    append_lanes(Scale { alloc, steps }, told.lanes, to)?;
    append_all_arrows(told, to)?;
    append_legend(height, to)?;
    append(b"</svg>\n", to)
}

/// Appends the picture of a run as SVG, 1,180 pixels wide: its title, and a lane for each context,
/// 30 high, in which each step, or where there are more than 1,000 each thousandth part of the run,
/// is marked by what the context does then:
///
/// - a bar where it steps, as high as its share of the part;
/// - a line in the middle for the state in which it is longest, where it steps for less than three
///   quarters of the part: thin where it is ready, thick where it waits for a lock, dotted where it
///   waits for a condition, dashed where it waits to join;
/// - a bar below where it has a lock for more than half of the part;
/// - a triangle where it prints, a cross where it fails, and the texts of the first four errors;
/// - arrows from who starts, joins or notifies a context.
///
/// So a picture is as large as its lanes, however long the run is. Bytes of the file's name and of
/// the other texts that are no printable ASCII are shown as `?`.
///
/// `AllocError`: a growth was refused, here or where columns are counted, and nothing has changed.
pub fn append_picture(
    alloc: Global,
    told: &Timeline<'_>,
    to: &mut Vec<u8>,
) -> Result<(), AllocError>
    ensures appended { OnOk result (to.new.items ≡ to.old.items ++ picture told.now) }
    ensures kept { OnErr result (to.new.items ≡ to.old.items) }
{
    let start = to.len();
    if append_parts(alloc, told, to).is_err() {
        to.truncate(start);
        return Err(AllocError);
    }
    Ok(())
}
