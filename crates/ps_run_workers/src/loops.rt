//! What the threads of a run do. Workers take the baton one at a time, for some turns each; the
//! collector's thread takes it for what both sides of the memory do together, and copies without it.

use crate::batons::Baton;
use crate::origins::Origin;
use crate::serial::SerialBaton;
use crate::serving::Lent;
use ps_core_laws::collected::CollectedMemory;
use ps_core_laws::sides::{Collects, LoggedMemory, Works};
use ps_ctx::deeds::Deeds;
use ps_step_interpreter::interprets::Interpret;
use ps_vault::Viewer;
use std::sync::atomic::{AtomicU64, Ordering};
use std::sync::{Condvar, Mutex, Wait};
use std::thread;
use std::thread::Threads;

/// The actions of the collector between two looks whether it is called.
const ACTIONS: u32 = 128;

/// What the threads of a run share.
#[derive(Drop)]
pub(crate) struct Desk<
    'a,
    O: Origin,
    M: LoggedMemory + Drop,
    S: Interpret + Drop,
    D: Deeds + Drop,
    V: Viewer + Drop,
> {
    pub(crate) baton: Mutex<Baton<'a, O, M, S, D, V>>,
    /// Workers wait here for the collector's thread.
    workers: Condvar,
    /// The collector's thread waits here until it has something to do.
    bell: Condvar,
    /// The words that the collector's thread has copied so far: how fast it is, and no more.
    copied: AtomicU64,
}

impl<
    'a,
    O: Origin,
    M: LoggedMemory + Drop,
    S: Interpret + Drop,
    D: Deeds + Drop,
    V: Viewer + Drop,
> Desk<'a, O, M, S, D, V> {
    /// A desk for this baton.
    pub(crate) fn new(baton: Baton<'a, O, M, S, D, V>) -> Desk<'a, O, M, S, D, V> {
        Desk {
            baton: Mutex::new(baton),
            workers: Condvar::new(),
            bell: Condvar::new(),
            copied: AtomicU64::new(0),
        }
    }
}

impl<
    O: Origin,
    M: LoggedMemory + Drop,
    S: Interpret + Drop,
    D: Deeds + Drop,
    V: Viewer + Drop,
> Desk<'_, O, M, S, D, V> {
    /// A worker: turns under the lock, again and again, until the run is over. It sleeps while it
    /// has to wait for the collector's thread, and wakes that thread where there is something for
    /// it.
    fn work<R: Wait>(&self, rt: &R) {
        for _ in rt.forever() {
            let mut held = self.workers.wait_while(rt, self.baton.lock(rt), |baton| {
                baton.must_wait(self.copied.load(Ordering::SeqCst))
            });
            let over = held.turns(self.copied.load(Ordering::SeqCst));
            let rings = held.rings();
            drop(held);
            if rings {
                self.bell.notify_one();
            }
            if over {
                self.workers.notify_all();
                return;
            }
        }
    }

    /// The collector works beside the workers, without the lock, until it finds nothing to do. It
    /// looks now and then whether it is called, where the lock happens to be free.
    fn copy_beside<C: Works>(&self, collector: &mut C) {
        collector.look_anew();
        for _ in 0..u64::MAX {
            let worked = act_some(collector);
            let copied = collector.copied();
            self.copied.store(copied, Ordering::SeqCst);
            if !worked || self.is_called(copied) {
                return;
            }
        }
    }

    /// While no cycle is open the collector clears the space that it left, until nothing is left to
    /// clear or it is called. It looks now and then, where the lock happens to be free.
    fn clear_beside<C: Works>(&self, collector: &mut C) {
        for _ in 0..u64::MAX {
            if !act_some(collector) || self.is_awaited() {
                return;
            }
        }
    }

    /// Whether the collector's thread has something to do with the baton. Where another has the lock
    /// it isn't asked.
    fn is_awaited(&self) -> bool {
        let Some(mut held) = self.baton.try_lock() else {
            return false;
        };
        !held.is_idle()
    }

    /// Whether the collector's thread, which has copied so many words so far, is called. Workers that
    /// may go on are woken. Where another has the lock it isn't asked.
    fn is_called(&self, copied: u64) -> bool {
        let Some(mut held) = self.baton.try_lock() else {
            return false;
        };
        let called = held.is_called();
        let wakes = held.wakes(copied);
        drop(held);
        if wakes {
            self.workers.notify_all();
        }
        called
    }

    /// The collector's thread: it sleeps until a cycle is open or it is asked for one, takes the
    /// lock for what both sides do together, and works without it between.
    fn collect<C: Collects<M> + Works + Drop, R: Wait>(&self, rt: &R, lent: Lent<C>) {
        let mut lent = lent;
        for _ in rt.forever() {
            let mut held = self
                .bell
                .wait_while(rt, self.baton.lock(rt), |baton| baton.rests());
            held.advance_cycle(&mut lent);
            let (over, copies) = (held.is_over(), held.waits.cycle.is_handed());
            drop(held);
            self.workers.notify_all();
            if over {
                return;
            }
            if copies {
                self.copy_beside(&mut lent.collector);
            } else {
                self.clear_beside(&mut lent.collector);
            }
        }
    }

    /// All threads were started, if none could not be.
    fn start<R: Wait>(&self, rt: &R) {
        self.baton.lock(rt).start();
    }

    /// A thread could not be started: all others end at their next look.
    fn refuse<R: Wait>(&self, rt: &R) {
        self.baton.lock(rt).refuse();
        self.workers.notify_all();
        self.bell.notify_all();
    }
}

/// Some actions of the collector. False: it found nothing to do.
fn act_some<C: Works>(collector: &mut C) -> bool {
    for _ in 0..ACTIONS {
        if !collector.act() {
            return false;
        }
    }
    true
}

/// Starts the collector and so many workers, and returns when all have ended.
pub(crate) fn work_all<
    O: Origin + Send + Sync,
    M: LoggedMemory + Drop + Send,
    S: Interpret + Drop + Send,
    D: Deeds + Drop + Send,
    V: Viewer + Drop + Send,
    C: Collects<M> + Works + Drop + Send,
    R: Threads + Wait + Sync,
>(rt: &R, desk: &Desk<'_, O, M, S, D, V>, lent: Lent<C>, workers: u32) {
    thread::scope(thread::scope_env(), rt, |scope| {
        for _ in 0..workers {
            if scope.spawn(move || desk.work(rt)).is_err() {
                desk.refuse(rt);
            }
        }
        if scope.spawn(move || desk.collect(rt, lent)).is_err() {
            desk.refuse(rt);
        }
        desk.start(rt);
    });
}

/// A worker of a run whose collector has no thread: turns under the lock, again and again, until the
/// run is over.
fn work_serially<
    O: Origin,
    M: CollectedMemory + Drop,
    S: Interpret + Drop,
    D: Deeds + Drop,
    C: Collects<M> + Drop,
    R: Wait,
>(rt: &R, baton: &Mutex<SerialBaton<'_, O, M, S, D, C>>) {
    for _ in rt.forever() {
        if baton.lock(rt).turns() {
            return;
        }
    }
}

/// Starts so many workers, and returns when all have ended. Where one can't be started, the others
/// end too.
pub(crate) fn work_all_serially<
    O: Origin + Send + Sync,
    M: CollectedMemory + Drop + Send,
    S: Interpret + Drop + Send,
    D: Deeds + Drop + Send,
    C: Collects<M> + Drop + Send,
    R: Threads + Wait + Sync,
>(rt: &R, baton: &Mutex<SerialBaton<'_, O, M, S, D, C>>, workers: u32) {
    thread::scope(thread::scope_env(), rt, |scope| {
        for _ in 0..workers {
            if scope.spawn(move || work_serially(rt, baton)).is_err() {
                baton.lock(rt).baton.refuse();
            }
        }
    });
}
