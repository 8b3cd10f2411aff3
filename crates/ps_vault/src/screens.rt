//! Who is shown what a run prints, as it comes.

ghost use Rattle.std.specs.Prelude.{◌≡◌, ◌≤◌, ℕ, Bool, true, false, List, Option, None, length, drop, min, not, OnOk, IfSome, IfNone, if◌then◌else◌};
ghost use Rattle.std.specs.Result.{is_err};
ghost use Rattle.std.specs.Io.KnownBytes.{Appends};
ghost use Rattle.ps_vault.specs.Screens.{AppendsPart, ShowsOn};
ghost use Rattle.ps_vault.specs.Stories.{world_at};

use crate::reports::{Report, RunFault};
use crate::vaults::Vault;
use ps_ctx::deeds::Deeds;
use ps_mem::Memory;
use ps_step_interpreter::interprets::Interpret;
use std::marker::Model;
use thiserror::Error;

/// Not all bytes could be shown.
#[derive(Clone, Copy, Debug, PartialEq, Eq, Error)]
#[error("not all bytes could be shown")]
pub struct Unseen;

/// Who is shown printed bytes, until it can't be shown all of them.
pub trait Viewer {
    /// The bytes that it was shown, as far as they are known.
    ghost seen: { Self → Option (List ℕ) };

    /// Whether it wants to see them while a run goes on.
    ghost watching: { Self → Bool };

    /// Whether it could not be shown all bytes.
    ghost failed: { Self → Bool };

    /// Whether it wants to see them while a run goes on.
    fn watches(&self) -> bool
        ensures { result ≡ watching self.now };

    /// Whether it could not be shown all bytes.
    fn has_failed(&self) -> bool
        ensures { result ≡ failed self.now };

    /// Shows it these bytes. `Unseen`: it was shown a beginning of them.
    fn show(&mut self, bytes: &[u8]) -> Result<(), Unseen>
        requires going { failed self.old ≡ false }
        ensures part { AppendsPart (seen self.old) (seen self.new) bytes.now }
        ensures whole { OnOk result (Appends (seen self.old) (seen self.new) bytes.now) }
        ensures watching { watching self.new ≡ watching self.old }
        ensures failed { failed self.new ≡ is_err result };
}

/// No one is shown anything, so nothing is known of it.
#[derive(Drop)]
pub struct NoViewer;

impl Viewer for NoViewer {
    ghost use Rattle.std.specs.Prelude.{None, false};

    ghost seen = { λ viewer. None };

    ghost watching = { λ viewer. false };

    ghost failed = { λ viewer. false };

    fn watches(&self) -> bool {
        false
    }

    fn has_failed(&self) -> bool {
        false
    }

    fn show(&mut self, _bytes: &[u8]) -> Result<(), Unseen> {
        Ok(())
    }
}

/// A viewer of the bytes that a run prints: seen as what it was shown, whether it watches, how many of
/// those bytes it was shown, and whether it was shown a part of the next and no more.
#[derive(Drop)]
pub struct Screen<V: Viewer + Drop> {
    viewer: V,
    shown: usize,
}

impl<V: Viewer + Drop> Model for Screen<V> {
    ghost use Rattle.ps_vault.specs.Screens.{Sight};

    ghost Value = { Sight };

    ghost view = { λ s. record {
      seen = V.seen s.viewer;
      watching = V.watching s.viewer;
      shown = s.shown;
      failed = V.failed s.viewer;
    } };
}

impl<V: Viewer + Drop> Screen<V> {
    /// A viewer that was shown nothing of a run.
    pub fn new(viewer: V) -> Screen<V>
        ensures seen { result.seen ≡ V.seen viewer }
        ensures watching { result.watching ≡ V.watching viewer }
        ensures shown { result.shown ≡ 0 }
        ensures failed { result.failed ≡ V.failed viewer }
    {
        Screen { viewer, shown: 0 }
    }

    /// How many steps are made before the viewer is shown what they printed: those of a turn, or,
    /// where it doesn't watch, all that are left.
    pub(crate) fn most_unseen(&self, quantum: u32, left: u32) -> u32
        ensures { result ≡ (if self.now.watching then min quantum left else left) }
    {
        if self.viewer.watches() {
            quantum.min(left)
        } else {
            left
        }
    }

    /// Whether a part of the next was shown, and no more.
    pub fn has_failed(&self) -> bool
        ensures { result ≡ self.now.failed }
    {
        self.viewer.has_failed()
    }

    /// Shows what was printed behind the bytes that were shown, if the viewer watches. False: showing
    /// has failed.
    pub fn follow(&mut self, printed: &[u8]) -> bool
        requires within { self.old.shown ≤ length printed.now }
        ensures within { self.new.shown ≤ length printed.now }
        ensures shown { ShowsOn self.old printed.now self.new printed.now }
        ensures whole { result ≡ true → self.old.watching ≡ true
            → self.new.shown ≡ length printed.now }
        ensures going { self.new.failed ≡ not result }
        ensures watching { self.new.watching ≡ self.old.watching }
        ensures still { self.old.watching ≡ false → self.new ≡ self.old }
    {
        if self.viewer.watches() {
            self.show(printed);
        }
        !self.has_failed()
    }

    /// Shows what was printed behind the bytes that were shown, unless showing has failed before.
    pub fn show(&mut self, printed: &[u8])
        requires within { self.old.shown ≤ length printed.now }
        ensures shown { ShowsOn self.old printed.now self.new printed.now }
        ensures within { self.new.shown ≤ length printed.now }
        ensures whole { self.new.failed ≡ false → self.new.shown ≡ length printed.now }
        ensures watching { self.new.watching ≡ self.old.watching }
        ensures stays { self.old.failed ≡ true → self.new ≡ self.old }
    {
        if self.has_failed() || self.shown == printed.len() {
            return;
        }
        if self.viewer.show(&printed[self.shown..]).is_ok() {
            self.shown = printed.len();
        }
    }

    /// The printed bytes that were not shown. None: a part of them was, and no more is to be.
    pub fn rest<'p>(&self, printed: &'p [u8]) -> Option<&'p [u8]>
        requires within { self.now.shown ≤ length printed.now }
        ensures rest { IfSome result (λ rest. rest.now ≡ drop self.now.shown printed.now) }
        ensures none { IfNone result (self.now.failed ≡ true) }
        ensures some { self.now.failed ≡ true → result ≡ None }
    {
        if self.has_failed() {
            return None;
        }
        Some(&printed[self.shown..])
    }

    /// The viewer itself.
    pub fn into_inner(self) -> V
        ensures seen { V.seen result ≡ self.seen }
        ensures failed { V.failed result ≡ self.failed }
    {
        let Screen { viewer, .. } = self;
        viewer
    }
}

/// A run's report or fault, and who was shown what it prints.
#[derive(Drop)]
pub struct Watched<V: Viewer + Drop> {
    pub report: Result<Report, RunFault>,
    pub screen: Screen<V>,
}

impl<M: Memory + Drop, S: Interpret + Drop, D: Deeds + Drop> Vault<'_, M, S, D> {
    /// The bytes that were printed so far.
    pub fn printed(&self) -> &[u8]
        ensures { result.now ≡ (world_at self.now).printed }
    {
        self.runtime.shared.printed.as_slice()
    }

    /// Shows a viewer what was printed behind the bytes that it was shown, if it watches. False:
    /// showing has failed.
    pub fn show_printed<V: Viewer + Drop>(&self, screen: &mut Screen<V>) -> bool
        requires within { screen.old.shown ≤ length (world_at self.now).printed }
        ensures within { screen.new.shown ≤ length (world_at self.now).printed }
        ensures shown { ShowsOn screen.old (world_at self.now).printed screen.new
            (world_at self.now).printed }
        ensures whole { result ≡ true → screen.old.watching ≡ true
            → screen.new.shown ≡ length (world_at self.now).printed }
        ensures going { screen.new.failed ≡ not result }
        ensures watching { screen.new.watching ≡ screen.old.watching }
        ensures still { screen.old.watching ≡ false → screen.new ≡ screen.old }
    {
        screen.follow(self.printed())
    }
}
