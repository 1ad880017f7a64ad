// The groups of a row, laid out one after the other.
ghost use Rattle.std.specs.Prelude.{◌≡◌, ◌+◌, ◌*◌, ◌-◌, ◌<◌, ◌≤◌, ℕ, if◌then◌else◌, length, slice_index};
ghost use Rattle.gmp_rule.specs.DataRule.{is_data_at, data_count};
ghost use Rattle.otn_base.specs.declared.limits.TheConstants.{GROUPS};
ghost use Rattle.trib_source.specs.Steps.Rows.{data_bytes, byte_laid};

use gmp_rule::Runner;
use std::mem;

/// Lays out so many groups, of `m` bytes each, one after the other: into the data groups go these bytes,
/// into the stuff groups bytes 0. The next group that the runner is asked about is the first of them.
/// `runs` says to go by runs of data groups, as is best where nearly all are data; what is laid out is
/// the same.
pub(crate) fn lay_groups(
    runner: &mut Runner,
    fresh: &[u8],
    m: usize,
    cycles: usize,
    runs: bool,
    into: &mut [u8],
)
    requires some { 1 ≤ m }
    requires cm { runner.old.cm ≤ GROUPS }
    requires asked { runner.old.asked + cycles ≤ GROUPS }
    requires fresh { length fresh.now ≡ data_bytes m runner.old.cm runner.old.asked cycles }
    requires size { length into.old ≡ m * cycles }
    ensures bytes { (x i : ℕ) → x < cycles → i < m
        → slice_index into.new (m * x + i) ≡ byte_laid m runner.old.cm runner.old.asked fresh.now x i }
    ensures runner { runner.new ≡ record runner.old { asked = runner.old.asked + cycles } }
{
    if runs {
        lay_by_runs(runner, fresh, m, cycles, into);
        return;
    }
    into.fill(0);
    // Bodies of their own, in which so many bytes are copied at once.
    match m {
        1 => lay_each(runner, fresh, 1, cycles, into),
        2 => lay_each(runner, fresh, 2, cycles, into),
        3 => lay_each(runner, fresh, 3, cycles, into),
        4 => lay_each(runner, fresh, 4, cycles, into),
        5 => lay_each(runner, fresh, 5, cycles, into),
        6 => lay_each(runner, fresh, 6, cycles, into),
        7 => lay_each(runner, fresh, 7, cycles, into),
        8 => lay_each(runner, fresh, 8, cycles, into),
        _ => lay_each(runner, fresh, m, cycles, into),
    }
}

// Lays them out one by one, where all is 0 so far. The runner is taken out of its place for that, so that the loop
// keeps it in registers.
#[inline(always)]
fn lay_each(runner: &mut Runner, fresh: &[u8], m: usize, cycles: usize, into: &mut [u8])
    requires some { 1 ≤ m }
    requires cm { runner.old.cm ≤ GROUPS }
    requires asked { runner.old.asked + cycles ≤ GROUPS }
    requires fresh { length fresh.now ≡ data_bytes m runner.old.cm runner.old.asked cycles }
    requires size { length into.old ≡ m * cycles }
    requires clear { (n : ℕ) → slice_index into.old n ≡ 0 }
    ensures bytes { (x i : ℕ) → x < cycles → i < m
        → slice_index into.new (m * x + i) ≡ byte_laid m runner.old.cm runner.old.asked fresh.now x i }
    ensures runner { runner.new ≡ record runner.old { asked = runner.old.asked + cycles } }
{
    let mut own = mem::replace(runner, Runner::start(0));
    let mut from = 0usize;
    for cycle in 0..cycles {
        from = lay_next(&mut own, fresh, from, m, into, m * cycle);
    }
    *runner = own;
}

// Lays them out by runs of data groups. The groups of one slot and of eight have bodies of their own, in which a stuff
// group is cleared at once.
fn lay_by_runs(runner: &mut Runner, fresh: &[u8], m: usize, cycles: usize, into: &mut [u8])
    requires some { 1 ≤ m }
    requires cm { runner.old.cm ≤ GROUPS }
    requires asked { runner.old.asked + cycles ≤ GROUPS }
    requires fresh { length fresh.now ≡ data_bytes m runner.old.cm runner.old.asked cycles }
    requires size { length into.old ≡ m * cycles }
    ensures bytes { (x i : ℕ) → x < cycles → i < m
        → slice_index into.new (m * x + i) ≡ byte_laid m runner.old.cm runner.old.asked fresh.now x i }
    ensures runner { runner.new ≡ record runner.old { asked = runner.old.asked + cycles } }
{
    match m {
        1 => lay_runs(runner, fresh, 1, cycles, into),
        8 => lay_runs(runner, fresh, 8, cycles, into),
        _ => lay_runs(runner, fresh, m, cycles, into),
    }
}

// Lays them out by runs of data groups. Before a run stands a stuff group, but for the first.
#[inline(always)]
fn lay_runs(runner: &mut Runner, fresh: &[u8], m: usize, cycles: usize, into: &mut [u8])
    requires some { 1 ≤ m }
    requires cm { runner.old.cm ≤ GROUPS }
    requires asked { runner.old.asked + cycles ≤ GROUPS }
    requires fresh { length fresh.now ≡ data_bytes m runner.old.cm runner.old.asked cycles }
    requires size { length into.old ≡ m * cycles }
    ensures bytes { (x i : ℕ) → x < cycles → i < m
        → slice_index into.new (m * x + i) ≡ byte_laid m runner.old.cm runner.old.asked fresh.now x i }
    ensures runner { runner.new ≡ record runner.old { asked = runner.old.asked + cycles } }
{
    let mut from = 0usize;
    let mut cycle = 0usize;
    while cycle < cycles {
        clear_at(into, m * cycle, m);
        let behind = lay_next(runner, fresh, from, m, into, m * cycle);
        let next = cycle + 1;
        let run = runner.data_run((cycles - next) as u32) as usize;
        from = copy_at(fresh, behind, into, m * next, m * run);
        cycle = next + run;
    }
}

// Lays out the next group at `at`: where it is data, `m` bytes from byte `from` on. Answers where the next
// one's bytes begin.
#[inline(always)]
fn lay_next(
    runner: &mut Runner,
    fresh: &[u8],
    from: usize,
    m: usize,
    into: &mut [u8],
    at: usize,
) -> usize
    requires asked { runner.old.asked < GROUPS }
    requires room { at + m ≤ length into.old }
    requires enough { from + m * data_count runner.old.cm
        (runner.old.asked + 1) ≤ length fresh.now + m * data_count runner.old.cm runner.old.asked }
    ensures from { result + m * data_count runner.old.cm runner.old.asked
        ≡ from + m * data_count runner.old.cm (runner.old.asked + 1) }
    ensures bytes { (i : ℕ) → i < m → slice_index into.new (at + i)
        ≡ (if is_data_at runner.old.cm (runner.old.asked + 1) then slice_index fresh.now (from + i)
        else slice_index into.old (at + i)) }
    ensures front { (n : ℕ) → n < at → slice_index into.new n ≡ slice_index into.old n }
    ensures behind { (n : ℕ) → at + m ≤ n → slice_index into.new n ≡ slice_index into.old n }
    ensures runner { runner.new ≡ record runner.old { asked = runner.old.asked + 1 } }
{
    if !runner.next() {
        return from;
    }
    copy_at(fresh, from, into, at, m)
}

// Sets `count` bytes at `at` to 0.
#[inline(always)]
fn clear_at(into: &mut [u8], at: usize, count: usize)
    requires room { at + count ≤ length into.old }
    ensures bytes { (i : ℕ) → i < count → slice_index into.new (at + i) ≡ 0 }
    ensures front { (n : ℕ) → n < at → slice_index into.new n ≡ slice_index into.old n }
    ensures behind { (n : ℕ) → at + count ≤ n → slice_index into.new n ≡ slice_index into.old n }
{
    into[at..at + count].fill(0);
}

/// Copies `count` bytes from byte `from` on to `at`. Answers where the next ones begin.
#[inline(always)]
pub(crate) fn copy_at(fresh: &[u8], from: usize, into: &mut [u8], at: usize, count: usize) -> usize
    requires fresh { from + count ≤ length fresh.now }
    requires room { at + count ≤ length into.old }
    ensures next { result ≡ from + count }
    ensures bytes { (i : ℕ) → i < count → slice_index into.new (at + i) ≡ slice_index fresh.now (from + i) }
    ensures front { (n : ℕ) → n < at → slice_index into.new n ≡ slice_index into.old n }
    ensures behind { (n : ℕ) → at + count ≤ n → slice_index into.new n ≡ slice_index into.old n }
{
    let next = from + count;
    into[at..at + count].copy_from_slice(&fresh[from..next]);
    next
}
