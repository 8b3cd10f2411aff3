//! Arrows from lane to lane: what a context does with another.

ghost use Rattle.std.specs.Prelude.{◌≡◌, ◌++◌, take, length, OnOk};
ghost use Rattle.std.specs.List.{flat_map};
ghost use Rattle.ps_timelines.specs.Arrows as arrows;
ghost use Rattle.ps_timelines.specs.Arrows.{arrow_head, arrow_key, arrow_text, arrows_text, shaft_text};
ghost use Rattle.ps_timelines.specs.Arrows.{side_text, step_text};

use crate::bytes::append_between;
use crate::lanes::{FIRST_LANE, LANES_LEFT, NEXT_LANE, append_place, place};
use crate::levels::LANE_HEIGHT;
use ps_views::append;
use std::alloc::AllocError;

/// How many arrows of a kind are drawn at most.
const MOST_ARROWS: usize = 150;

/// What a context does with another in a step.
#[derive(Clone, Copy, Debug, PartialEq, Eq)]
pub(crate) enum Relation {
    Starts,
    Joins,
    Notifies,
}

/// A step that has to do with two contexts. Lanes are told by their number, from 0.
#[derive(Clone, Copy, Debug, PartialEq, Eq)]
pub struct Arrow {
    /// The number of the step, from 1. The arrow stands behind it.
    pub step: u32,
    /// Whence it points, and where to.
    pub from: u32,
    pub to: u32,
}

/// Its name in the style sheet.
fn relation_word(relation: Relation) -> &'static [u8]
    ensures { result.now ≡ arrows.relation_word relation }
{
    match relation {
        Relation::Starts => b"fork",
        Relation::Joins => b"joined",
        Relation::Notifies => b"notify",
    }
}

/// What is told of the step.
fn relation_title(relation: Relation) -> &'static [u8]
    ensures { result.now ≡ arrows.relation_title relation }
{
    match relation {
        Relation::Starts => b"starts a context",
        Relation::Joins => b"joins a context",
        Relation::Notifies => b"notifies a context",
    }
}

/// Where an arrow leaves a lane or comes to it: at the side on which the other lane lies.
fn edge(lane: u32, other: u32) -> usize
    ensures { result ≡ arrows.edge lane other }
{
    let top = FIRST_LANE + NEXT_LANE * lane as usize;
    if lane < other { top + LANE_HEIGHT } else { top }
}

/// Appends what the path of an arrow begins with.
#[tactic(auto, unfolding(crate::specs::Arrows::arrow_head))]
fn append_arrow_head(relation: Relation, to: &mut Vec<u8>) -> Result<(), AllocError>
    ensures appended { OnOk result (to.new.items ≡ to.old.items ++ arrow_head relation) }
    ensures front { take (length to.old.items) to.new.items ≡ to.old.items }
{
    append(b"<path class=\"", to)?;
    append(relation_word(relation), to)
}

/// Appends where the line of an arrow lies.
fn append_place_of(steps: u32, step: u32, to: &mut Vec<u8>) -> Result<(), AllocError>
    ensures appended { OnOk result (to.new.items ≡ to.old.items ++ step_text steps step) }
    ensures front { take (length to.old.items) to.new.items ≡ to.old.items }
{
    append_between(b"\" d=\"M", LANES_LEFT + place(steps, step), b" ", to)
}

/// Appends where an arrow leaves a lane or comes to it.
fn append_side(lane: u32, other: u32, behind: &[u8], to: &mut Vec<u8>) -> Result<(), AllocError>
    ensures appended { OnOk result
        (to.new.items ≡ to.old.items ++ side_text lane other behind.now) }
    ensures front { take (length to.old.items) to.new.items ≡ to.old.items }
{
    append_between(b"", edge(lane, other), behind, to)
}

/// Appends the line of an arrow.
#[tactic(auto, unfolding(crate::specs::Arrows::shaft_text))]
fn append_shaft(steps: u32, arrow: Arrow, to: &mut Vec<u8>) -> Result<(), AllocError>
    ensures appended { OnOk result (to.new.items ≡ to.old.items ++ shaft_text steps arrow) }
    ensures front { take (length to.old.items) to.new.items ≡ to.old.items }
{
    append_place_of(steps, arrow.step, to)?;
    append_side(arrow.from, arrow.to, b"V", to)?;
    append_side(arrow.to, arrow.from, b"\"><title>step ", to)
}

/// Appends what is told of the step.
fn append_relation_title(relation: Relation, to: &mut Vec<u8>) -> Result<(), AllocError>
    ensures appended { OnOk result (to.new.items ≡ to.old.items ++ arrows.relation_title relation) }
    ensures front { take (length to.old.items) to.new.items ≡ to.old.items }
{
    append(relation_title(relation), to)
}

/// Appends an arrow.
#[tactic(auto, unfolding(crate::specs::Arrows::arrow_text))]
fn append_arrow(
    steps: u32,
    relation: Relation,
    arrow: Arrow,
    to: &mut Vec<u8>,
) -> Result<(), AllocError>
    ensures appended { OnOk result
        (to.new.items ≡ to.old.items ++ arrow_text steps relation arrow) }
    ensures front { take (length to.old.items) to.new.items ≡ to.old.items }
{
    append_arrow_head(relation, to)?;
    append_shaft(steps, arrow, to)?;
    append_between(b"", arrow.step as usize, b": ", to)?;
    append_relation_title(relation, to)?;
    append(b"</title></path>\n", to)
}

/// Appends arrows one behind another.
fn append_each_arrow(
    steps: u32,
    relation: Relation,
    arrows: &[Arrow],
    to: &mut Vec<u8>,
) -> Result<(), AllocError>
    ensures appended { OnOk result
        (to.new.items ≡ to.old.items ++ flat_map (arrow_text steps relation) arrows.now) }
    ensures front { take (length to.old.items) to.new.items ≡ to.old.items }
{
    for arrow in arrows {
        append_arrow(steps, relation, *arrow, to)?;
    }
    Ok(())
}

/// Appends the arrows of a kind, where they aren't too many.
#[tactic(auto, unfolding(crate::specs::Arrows::arrows_text))]
pub(crate) fn append_arrows(
    steps: u32,
    relation: Relation,
    arrows: &[Arrow],
    to: &mut Vec<u8>,
) -> Result<(), AllocError>
    ensures appended { OnOk result
        (to.new.items ≡ to.old.items ++ arrows_text steps relation arrows.now) }
    ensures front { take (length to.old.items) to.new.items ≡ to.old.items }
{
    if arrows.len() > MOST_ARROWS {
        return Ok(());
    }
    append_each_arrow(steps, relation, arrows, to)
}

/// Appends what an arrow says.
#[tactic(auto, unfolding(crate::specs::Arrows::arrow_key))]
pub(crate) fn append_arrow_key(
    x: usize,
    y: usize,
    relation: Relation,
    to: &mut Vec<u8>,
) -> Result<(), AllocError>
    ensures appended { OnOk result (to.new.items ≡ to.old.items ++ arrow_key x y relation) }
    ensures front { take (length to.old.items) to.new.items ≡ to.old.items }
{
    append_place(x, y, to)?;
    append_arrow_head(relation, to)?;
    append(b"\" d=\"M12-9V7\"/><text x=\"34\" y=\"4\">", to)?;
    append_relation_title(relation, to)?;
    append(b"</text></g>\n", to)
}
