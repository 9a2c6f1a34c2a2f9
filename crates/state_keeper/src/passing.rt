//! A state file is shortened by slices: what is left of what it has is written to a file beside it, and then what was added since.

ghost use Rattle.std.specs.Prelude.{◌≡◌, ◌≢◌, ◌<◌, ◌≤◌, ◌*◌, ◌+◌, ◌-◌, ◌^◌, IsTrue, IfOk, IfErr, OnOk};
ghost use Rattle.batch_file.specs.Crashes.{LeavesOnly};
ghost use Rattle.batch_file.specs.Frames.{IsOldOrNew, IsOnDisk, IsReadable, IsUnrenewed, recovered};
ghost use Rattle.change_codec.specs.declared.keeper.ShortenFault.TheVariants.{Failed};
ghost use Rattle.state_keeper.specs.Passing.{IsKnownFile, IsOnTheWay, IsReady, KeepsFile, LeadsOn, SlicesOn, StandsAsItWas, StepsOn, front_of, gap, hand, to_go_of};
ghost use Rattle.state_keeper.specs.Seen.{IsSlice};
ghost use Rattle.state_keeper.specs.PassingSteps.{IsAtEnd, IsEnded};
ghost use Rattle.state_keeper.specs.declared.passing.Step.TheVariants.{On, Ready};

use crate::coding::list;
use crate::counting::count;
pub(crate) use crate::course::Shortening;
use crate::course::{Course, HEADER, Stage};
use crate::deciding::decide;
use crate::following::follow;
use crate::leaving::leave;
use crate::noting::note;
use batch_file::appending::{BatchFile, RenewFault};
use batch_file::device::Device;
use change_codec::ShortenFault;
use shortening::LastTold;
use state_file::Known;
use std::alloc::Global;
use std::mem;
use system_faults::SystemFault;

/// So many bytes of what the file had are gone over at once, but for the last frame: few, so that requests hardly wait for it.
const SLICE: usize = 1 << 13;

/// Where it stands behind a slice.
pub(crate) enum Step {
    /// More is to be done.
    On,
    /// All is written, to the end of the file.
    Ready,
}

/// Begins with all that the file has.
pub(crate) fn begin<D: Device>(alloc: Global, file: &BatchFile<D>, known: &Known) -> Shortening
    requires on_disk { IsOnDisk D.seen D.may_leave D.faults file.now }
    requires known { IsKnownFile D.Device file.now known.now }
    ensures begun { IsOnTheWay D.Device file.now known.now.rules.items result }
    ensures front { front_of D.Device file.now result ≡ recovered (D.seen file.now.device) }
    ensures to_go { to_go_of result file.now.end ≡ 5 * (file.now.end - 16) + 21 }
{
    let starts = Vec::new(alloc);
    let last = LastTold::new();
    let course = Course {
        alloc,
        front_end: file.end,
        at: HEADER,
        starts,
        last,
        until: known.until,
    };
    Shortening {
        course,
        stage: Stage::Counting,
        shortened: 0,
    }
}

/// Goes over a frame more, or on to the next pass.
fn advance<D: Device>(
    course: &mut Course,
    stage: Stage,
    file: &mut BatchFile<D>,
    rules: &[u8],
) -> Result<Stage, ShortenFault>
    requires { IsOnDisk D.seen D.may_leave D.faults file.old }
    ensures file { KeepsFile D.Device file.old file.new }
    ensures on { IfOk result (λ new. StepsOn D.Device rules.now (hand file.old course.old stage) (hand file.new course.new new)) }
    ensures refused { IfErr result (λ fault. fault ≢ Failed) }
{
    match stage {
        Stage::Counting => count(course, file),
        Stage::Noting(unexpired) => note(course, unexpired, file),
        Stage::Listing(listing) => list(course, listing, file),
        Stage::Deciding(deciding) => decide(course, deciding, file, rules),
        Stage::Leaving(leaving, batch, draft) => leave(course, leaving, batch, draft, file),
        Stage::Following(draft) => follow(course, draft, file),
    }
}

/// Whether all is written.
fn is_ready(course: &Course, stage: &Stage, end: usize) -> bool
    ensures { IsTrue result → IsAtEnd course.now stage.now end }
{
    match stage {
        Stage::Following(_) => course.at == end,
        _ => false,
    }
}

/// How much a step counts for that went from one place to another.
fn moved(from: usize, to: usize) -> usize
    ensures { result < 2 ^ 15 → gap from to + 17 ≤ result }
{
    from.max(to).saturating_sub(from.min(to)).saturating_add(17)
}

/// How many bytes are gone over at once, but for the last frame: of what was added since, twice as many, so that its end is reached
/// while more is added.
fn limit_of(stage: &Stage) -> usize
    ensures { result ≤ 2 ^ 15 }
{
    match stage {
        Stage::Following(_) => 2 * SLICE,
        _ => SLICE,
    }
}

/// Goes over a slice, or what is left where that is less.
fn go_over<D: Device>(
    course: &mut Course,
    stage: Stage,
    file: &mut BatchFile<D>,
    rules: &[u8],
) -> Result<Stage, ShortenFault>
    requires { IsOnDisk D.seen D.may_leave D.faults file.old }
    ensures file { KeepsFile D.Device file.old file.new }
    ensures on { IfOk result (λ new. LeadsOn D.Device rules.now (hand file.old course.old stage) (hand file.new course.new new)) }
    ensures slice { IfOk result (λ new. SlicesOn D.Device rules.now (hand file.old course.old stage) (hand file.new course.new new)) }
    ensures refused { IfErr result (λ fault. fault ≢ Failed) }
{
    let limit = limit_of(&stage);
    let at = course.at;
    let mut stage = advance(course, stage, file, rules)?;
    let mut gone = moved(at, course.at);
    while gone < limit {
        if is_ready(course, &stage, file.end) {
            return Ok(stage);
        }
        let at = course.at;
        stage = advance(course, stage, file, rules)?;
        gone = gone.saturating_add(moved(at, course.at));
    }
    Ok(stage)
}

/// Where it stands, where the file ends there.
fn ended(shortening: &mut Shortening, end: usize) -> Step
    ensures course { shortening.new.course ≡ shortening.old.course }
    ensures stage { shortening.new.stage ≡ shortening.old.stage }
    ensures ready { result ≡ Ready → IsEnded shortening.new end }
    ensures on { result ≡ On → ¬ (IsAtEnd shortening.old.course shortening.old.stage end) }
{
    let Stage::Following(draft) = &shortening.stage else {
        return Step::On;
    };
    shortening.shortened = draft.shortened;
    if shortening.course.at == end {
        Step::Ready
    } else {
        Step::On
    }
}

/// Goes on by a slice.
pub(crate) fn go_on<D: Device>(
    shortening: &mut Shortening,
    file: &mut BatchFile<D>,
    rules: &[u8],
) -> Result<Step, ShortenFault>
    requires on_disk { IsOnDisk D.seen D.may_leave D.faults file.old }
    requires begun { IsOnTheWay D.Device file.old rules.now shortening.old }
    ensures settled { IsOnDisk D.seen D.may_leave D.faults file.new }
    ensures end { file.new.end ≡ file.old.end }
    ensures seen { D.seen file.new.device ≡ D.seen file.old.device }
    ensures any_moment { LeavesOnly D.moment D.left_since file.old.device file.new.device
        (λ left. left ≡ D.seen file.old.device) }
    ensures truth { D.reads_true file.new.device → D.reads_true file.old.device }
    ensures true_before { LeavesOnly D.moment D.left_since file.old.device file.new.device (λ _. D.reads_true file.old.device) }
    ensures on { IfOk result (λ step. step ≡ On → IsOnTheWay D.Device file.new rules.now shortening.new) }
    ensures nearer { IfOk result (λ step. step ≡ On → to_go_of shortening.new file.old.end < to_go_of shortening.old file.old.end) }
    // No more than a slice is gone over, but for one frame, where what was read is true.
    ensures slice { OnOk result (D.reads_true file.new.device → IsSlice (recovered (D.seen file.old.device))
        (to_go_of shortening.old file.old.end) (to_go_of shortening.new file.old.end)) }
    ensures same { IfOk result (λ step. front_of D.Device file.new shortening.new ≡ front_of D.Device file.old shortening.old) }
    ensures ready { IfOk result (λ step. step ≡ Ready → IsReady D.Device file.new shortening.new) }
    ensures refused { IfErr result (λ fault. fault ≢ Failed) }
{
    if is_ready(&shortening.course, &shortening.stage, file.end) {
        return Ok(ended(shortening, file.end));
    }
    let was = mem::replace(&mut shortening.stage, Stage::Counting);
    let stage = go_over(&mut shortening.course, was, file, rules)?;
    shortening.stage = stage;
    Ok(ended(shortening, file.end))
}

/// Puts the second file in the place of the first.
pub(crate) fn place<D: Device>(
    shortening: &Shortening,
    file: &mut BatchFile<D>,
) -> Result<(), RenewFault>
    requires on_disk { IsOnDisk D.seen D.may_leave D.faults file.old }
    requires ready { IsReady D.Device file.old shortening.now }
    ensures settled { OnOk result (IsOnDisk D.seen D.may_leave D.faults file.new) }
    ensures placed { OnOk result ((ready : IsReady D.Device file.old shortening.now) → recovered (D.seen file.new.device) ≡ ready.batches) }
    ensures readable { IsReady D.Device file.old shortening.now → LeavesOnly D.moment D.left_since file.old.device file.new.device IsReadable }
    ensures any_moment { (ready : IsReady D.Device file.old shortening.now) → LeavesOnly D.moment D.left_since file.old.device file.new.device
        (IsOldOrNew (recovered (D.seen file.old.device)) ready.batches) }
    ensures truth { D.reads_true file.new.device → D.reads_true file.old.device }
    ensures true_before { LeavesOnly D.moment D.left_since file.old.device file.new.device (λ _. D.reads_true file.old.device) }
    ensures stands { IfErr result (λ fault. IsUnrenewed fault → StandsAsItWas D.Device file.old file.new) }
{
    match &shortening.stage {
        Stage::Following(draft) => file.place_next(&draft.next),
        _ => Err(RenewFault::Unplaced(SystemFault::Other)),
    }
}
