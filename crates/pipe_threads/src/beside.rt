//! Calls at each place of a list, side by side.

ghost use Rattle.std.specs.Prelude.{◌≡◌, ◌+◌, ◌<◌, ◌^◌, length, slice_index_or, ℕ};
ghost use Rattle.std.specs.Fork.{AcceptsAt, AcceptsEach, ChangesAt, ChangesEach};
ghost use Rattle.std.specs.Thread.{IsSync, IsSend};
ghost use Rattle.pipe_threads.specs.Places.{AreAccepted, AreChanged};

use std::thread::{Threads, join_mut};

/// Calls f(i, &mut s[i]) at each place, in at most so many threads: this one, and others that this one
/// makes, where they can be had. Each takes places that follow one another. Threads that new threads
/// make often wait for the processors of their makers, though others have nothing to do.
pub fn for_each_beside<R: Threads + Sync, T: Send, F: Fn(usize, &mut T) + Sync>(
    rt: &R,
    s: &mut [T],
    threads: usize,
    f: &F,
)
    requires accepts { AcceptsEach F.Fn f.now s.old }
    ensures { ChangesEach F.Fn f.now s.old s.new }
{
    each_from(rt, f, threads, 0, s);
}

/// Calls f at a place.
fn at_one<T, F: Fn(usize, &mut T)>(f: &F, place: usize, item: &mut T)
    requires { AcceptsAt F.Fn f.now place item.old }
    ensures { ChangesAt F.Fn f.now place item.old item.new }
{
    f(place, item);
}

/// Calls f at the places from one on, one after another.
fn in_turn<T, F: Fn(usize, &mut T)>(f: &F, base: usize, s: &mut [T])
    requires { AreAccepted (AcceptsAt F.Fn f.now) base s.old }
    ensures { AreChanged (ChangesAt F.Fn f.now) base s.old s.new }
{
    for k in 0..s.len() {
        at_one(f, base + k, &mut s[k]);
    }
}

/// Calls f at some places in another thread, and does other work in this one.
fn beside_work<R: Threads + Sync, T: Send, F: Fn(usize, &mut T) + Sync, B: FnMut()>(
    rt: &R,
    f: &F,
    base: usize,
    first: &mut [T],
    work: &mut B,
)
    requires first { AreAccepted (AcceptsAt F.Fn f.now) base first.old }
    requires work { B.pre work.old }
    ensures first { AreChanged (ChangesAt F.Fn f.now) base first.old first.new }
    ensures work { B.step work.old tt work.new }
{
    let mut front = ||
        requires { IsSync F.row × IsSend T.row
            × AreAccepted (AcceptsAt F.Fn f.now) base first.now }
        ensures { AreChanged (ChangesAt F.Fn f.entry.now) base first.entry.now first.exit.now }
    { in_turn(f, base, first) };
    join_mut(rt, &mut front, work);
}

/// Calls f at the places from one on, in at most so many threads.
#[cycle(places)]
fn each_from<R: Threads + Sync, T: Send, F: Fn(usize, &mut T) + Sync>(
    rt: &R,
    f: &F,
    threads: usize,
    base: usize,
    s: &mut [T],
)
    requires { AreAccepted (AcceptsAt F.Fn f.now) base s.old }
    ensures { AreChanged (ChangesAt F.Fn f.now) base s.old s.new }
{
    if threads < 2 || s.len() < 2 {
        in_turn(f, base, s);
        return;
    }
    let size = s.len().div_ceil(threads);
    let (first, others) = s.split_at_mut(size);
    first_and_others(rt, f, base, first, threads - 1, base + size, others);
}

/// Calls f at some places in another thread, and at others in at most so many.
#[cycle(places)]
fn first_and_others<R: Threads + Sync, T: Send, F: Fn(usize, &mut T) + Sync>(
    rt: &R,
    f: &F,
    base: usize,
    first: &mut [T],
    threads: usize,
    next: usize,
    others: &mut [T],
)
    requires first { AreAccepted (AcceptsAt F.Fn f.now) base first.old }
    requires others { AreAccepted (AcceptsAt F.Fn f.now) next others.old }
    ensures first { AreChanged (ChangesAt F.Fn f.now) base first.old first.new }
    ensures others { AreChanged (ChangesAt F.Fn f.now) next others.old others.new }
{
    let mut back = ||
        requires { IsSync R.row × IsSync F.row × IsSend T.row
            × AreAccepted (AcceptsAt F.Fn f.now) next others.now }
        ensures { AreChanged (ChangesAt F.Fn f.entry.now) next others.entry.now others.exit.now }
    { each_from(rt, f, threads, next, others) };
    beside_work(rt, f, base, first, &mut back);
}
