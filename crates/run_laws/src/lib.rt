#![tactic(auto)]
//! Laws of legal runs: the life of each region, regions apart, totals, and what is out at the end.
//! Each law is the contract of a function that does nothing.

ghost use Rattle.std.specs.Prelude.{◌≡◌, ℕ, List};
ghost use Rattle.pool_law.specs.declared.run.Shape.{Shape};
ghost use Rattle.pool_law.specs.declared.note.Object.{Object};
ghost use Rattle.pool_law.specs.declared.id.RegionId.{RegionId};
ghost use Rattle.pool_law.specs.declared.id.RootId.{RootId};
ghost use Rattle.run_laws.specs.CacheCounts.{GoesThrough};
ghost use Rattle.run_laws.specs.CountLaw.{TotalIsCounted};
ghost use Rattle.pool_law.specs.Counts.{CountsHold, TotalHolds};
ghost use Rattle.run_laws.specs.HandCounts.{HandsBalance};
ghost use Rattle.run_laws.specs.Regroup.{SumsAgree};
ghost use Rattle.pool_law.specs.declared.command.Command.{Command};
ghost use Rattle.pool_law.specs.declared.run.Answered.{Answered};
ghost use Rattle.run_laws.specs.Hands.{EmptyHanded};
ghost use Rattle.pool_law.specs.declared.run.Run.{Run};
ghost use Rattle.pool_law.specs.Legal.{IsLegal, logs_of};
ghost use Rattle.run_laws.specs.Conserved.{ReturnsOnce, CachesEndEmpty, RegionsReturn, OutAtEnd};
ghost use Rattle.run_laws.specs.Reads.{ReadsGiveWritten};
ghost use Rattle.run_laws.specs.Reported.{ListsLeaks};
ghost use Rattle.run_laws.specs.Refused.{first_taking, byte_root, given_while_live, given_alive, kept_alive, given_and_kept, kept_and_given, given_late, ended_twice, kept_elsewhere, false_full, false_hit, grown_and_held, grown_and_returned_twice, grown_after_return, grown_uncounted};
ghost use Rattle.run_laws.specs.RefusedRuns.{shape_of, stale, swapped, read_early, set_unnoted, read_past, touched, leaks_turned};
ghost use Rattle.run_laws.specs.Headline.{Headline};
ghost use Rattle.run_laws.specs.OneLog.{StandInOneLog};
ghost use Rattle.run_laws.specs.Parcels.{TotalsAreShared};
ghost use Rattle.pool_law.specs.Lives.{RegionsLive};
ghost use Rattle.pool_law.specs.Apart.{LieApart, NeverOverlap};
ghost use Rattle.pool_law.specs.LaneLaw.{IsLaneLog};
ghost use Rattle.pool_law.specs.Readers.{ToldNotes};
ghost use Rattle.pool_law.specs.Logs.{ToldNote, Logs, History, IsHistory, history_of, of_lane};
ghost use Rattle.run_laws.specs.PlaceLives.{PlaceLives};

/// What was kept by a cache has been hit or shed, or is still there.
pub fn regions_go_through()
    ensures through { (lane class : ℕ) → GoesThrough lane class }
{}

/// The births of a place have its generations in order, and what an end takes out was born there
/// with its region.
pub fn places_live()
    ensures lives { (place : ℕ) → PlaceLives place }
{}

/// Logs give each object one history.
pub fn one_history()
    ensures one { (object : Object) (logs : Logs) (h : History) →
        IsHistory object logs h → history_of object logs ≡ h }
{}

/// In a lane's log each region that is taken, hit, shed or left is put down before the next: a root is
/// born with it or grows into it, or it is kept or given.
pub fn hands_are_empty()
    ensures empty { (shape : Shape) (lane : ℕ) (commands : List Command) (replies : List Answered)
        (es : ToldNotes) → IsLaneLog shape lane commands replies es → EmptyHanded es }
{}

/// In a lane's log what is got, left or shed is used, kept or given once; what is used was got, and what
/// is shed is given.
pub fn hands_balance()
    ensures balance { (r : RegionId) (es : ToldNotes) → EmptyHanded es → HandsBalance r es }
{}

/// The total of a root is what the lanes count, with what was posted and not fetched.
pub fn totals_are_counted()
    ensures counted { (root : RootId) (logs : List (List ToldNote)) →
        ((lane : ℕ) → CountsHold root 0 (of_lane logs lane)) → TotalHolds root logs →
        TotalIsCounted root logs }
{}

/// A sum over the notes at an object, in all logs, is the sum over its history.
pub fn sums_agree()
    ensures agree { SumsAgree }
{}

/// In a legal run each taking lives one life: its Take, and all that moves it after that, in order.
/// One root after another uses it, each with one use more, from its birth or its growth into the region
/// to its end or its growth out of it. Then, or where a lane got it and was outrun, the arena gets it,
/// or a cache keeps it, which is hit for the next use or sheds it for the arena.
pub fn regions_live()
    ensures live { (run : Run) → IsLegal run → RegionsLive (logs_of run) }
{}

/// In a legal run two uses whose places overlap are of one taking, or the taking of one came back
/// before that of the other was taken.
pub fn regions_lie_apart()
    ensures apart { (run : Run) → IsLegal run → LieApart (logs_of run) }
{}

/// In a legal run, of two uses whose places overlap one ended before the other began.
pub fn roots_never_overlap()
    ensures apart { (run : Run) → IsLegal run → NeverOverlap (logs_of run) }
{}

/// In a legal run a root that is born has in one log its birth and then the step that sets its
/// word, each once; and a root that ends has in one log the release that ends its count, its end,
/// and the step that vacates its place, in this order, each once.
pub fn roots_in_one_log()
    ensures one_log { (run : Run) → IsLegal run → StandInOneLog (logs_of run) }
{}

/// In a legal run each cache of each lane comes to an end, and is empty there.
pub fn caches_end_empty()
    ensures empty { (run : Run) → IsLegal run → CachesEndEmpty run.shape (logs_of run) }
{}

/// In a legal run a region that a root uses returns once, by the growth that replaces it, within two
/// notes, or by the release that ends the root's count, within four notes behind it in its log, and
/// otherwise never; the last one returns exactly where the root's total is 0.
pub fn regions_return()
    ensures returned { (run : Run) → IsLegal run → RegionsReturn (logs_of run) }
{}

/// In a legal run each arena comes to an end, and has out there exactly the regions that live roots have
/// then, whose places name it.
pub fn live_regions_are_out()
    ensures out { (run : Run) → IsLegal run → OutAtEnd run.shape (logs_of run) }
{}

/// In a legal run the total of each root is the sum of the lanes' counts and the parcels of it that
/// are not fetched.
pub fn totals_are_shared()
    ensures shared { (run : Run) → IsLegal run → TotalsAreShared (logs_of run) run.shape.lanes }
{}

/// The headline. In a legal run, whatever its trace, its lanes and their interleaving: regions of
/// live roots never overlap; each read gives the bytes last written to its root, at its view's
/// offsets; a root's region returns once, by the release that ends its count or the growth that
/// replaces it, and otherwise never; at the end exactly the live roots' regions are out, and the leak
/// report lists exactly the sampled roots never freed.
pub fn headline()
    ensures headline { (run : Run) → IsLegal run → Headline run }
{}

/// Logs that no pool makes are refused: a region that is given back while its root is live, so that
/// another root lies on it; one that returns though its root never ends, or twice, or long after its
/// end, or by way of a cache that isn't its own; a count that ends twice; an arena that says it is
/// full and is not; a cache that gives what it never kept.
pub fn forged_notes_are_refused()
    ensures overlapping { NeverOverlap given_while_live → ⊥ }
    ensures given_early { RegionsLive given_while_live → ⊥ }
    ensures given_alive { ReturnsOnce given_alive (byte_root 0) (first_taking 1) → ⊥ }
    ensures kept_alive { ReturnsOnce kept_alive (byte_root 0) (first_taking 1) → ⊥ }
    ensures given_and_kept { ReturnsOnce given_and_kept (byte_root 0) (first_taking 1) → ⊥ }
    ensures kept_and_given { ReturnsOnce kept_and_given (byte_root 0) (first_taking 1) → ⊥ }
    ensures given_late { ReturnsOnce given_late (byte_root 0) (first_taking 1) → ⊥ }
    ensures ended_twice { ReturnsOnce ended_twice (byte_root 0) (first_taking 1) → ⊥ }
    ensures kept_elsewhere { RegionsLive kept_elsewhere → ⊥ }
    ensures false_full { OutAtEnd (shape_of 1 1) false_full → ⊥ }
    ensures false_hit { CachesEndEmpty (shape_of 1 1) false_hit → ⊥ }
{}

/// Growths that no pool makes are refused: one that holds the region that the root leaves, or returns
/// it twice, or before; and one that does not count as a use of the region that the root goes on in.
pub fn forged_growths_are_refused()
    ensures held { ReturnsOnce grown_and_held (byte_root 0) (first_taking 1) → ⊥ }
    ensures twice { ReturnsOnce grown_and_returned_twice (byte_root 0) (first_taking 1) → ⊥ }
    ensures before { ReturnsOnce grown_after_return (byte_root 0) (first_taking 1) → ⊥ }
    ensures uncounted { RegionsLive grown_uncounted → ⊥ }
{}

/// Runs that no pool makes are refused: a read of what was there before; one of a composite's parts
/// the wrong way round; one noted earlier than the write before it; a write that was not noted; a
/// read past a slice; bytes that no read gives; leaks out of order.
pub fn forged_runs_are_refused()
    ensures stale { ReadsGiveWritten stale → ⊥ }
    ensures swapped { ReadsGiveWritten swapped → ⊥ }
    ensures read_early { Headline read_early → ⊥ }
    ensures set_unnoted { Headline set_unnoted → ⊥ }
    ensures read_past { ReadsGiveWritten read_past → ⊥ }
    ensures touched { ReadsGiveWritten touched → ⊥ }
    ensures leaks_turned { ListsLeaks leaks_turned → ⊥ }
{}
