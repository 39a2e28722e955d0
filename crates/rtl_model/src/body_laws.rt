//! The laws of bodies, over `specs/bodies`.

ghost use Rattle.rtl_model.specs.bodies.Laws.{EachRunAssigns, LooksAtReads, NothingIsKept, EachLooks, LooksAreRead};
ghost use Rattle.rtl_model.specs.bodies.Laws.{CaseTakesABranch, EachCopyPasses, EachLaterReplaces, SequencesAddUp, EachKindIsAsSaid, FollowsItsEdge, LeavesTell, ResetsReadNothing};
ghost use Rattle.rtl_model.specs.bodies.Laws.{HasItsWidth, EachPartIsSafe, EachReadIsThere, EntriesKeepTypes};

/// What a body assigns on every syntactic path has an entry on every run.
pub fn each_run_assigns()
    ensures { EachRunAssigns }
{}

/// What a run does depends on the values now of the nets that the body reads, on those before of
/// the nets whose events it looks at, and on the variable elements that it reads where it hasn't
/// assigned them.
pub fn looks_at_what_is_read()
    ensures { LooksAtReads }
{}

/// A body that stores no variable does the same whatever values its variables had before the run.
pub fn nothing_is_kept()
    ensures { NothingIsKept }
{}

/// What a driver's entry is depends on what the driver looks at alone: on no other net, and on no
/// other variable, that the body reads.
pub fn entries_follow_looks()
    ensures { EachLooks }
{}

/// What a driver looks at the body reads.
pub fn looks_are_read()
    ensures { LooksAreRead }
{}

/// A case always takes a branch.
pub fn case_takes_a_branch()
    ensures { CaseTakesABranch }
{}

/// A later assignment replaces an earlier one, and sees the variables as the earlier statements
/// left them.
pub fn later_replaces()
    ensures { EachLaterReplaces }
{}

/// A sequence reads, assigns, tests and stores what its parts do, and fits where they do.
pub fn sequences_add_up()
    ensures { SequencesAddUp }
{}

/// What a body reads and asks for an event, and what a value or a test looks at, is what its leaves
/// say.
pub fn leaves_tell()
    ensures { LeavesTell }
{}

/// A test is an edge test or a reset test, and a body clocked, just where it is said to be, and
/// what is clocked has an edge test or `'event`.
pub fn kinds_are_as_said()
    ensures { EachKindIsAsSaid }
{}

/// A clocked body does what its reset's branch does where its reset holds, else at its edge what
/// its branch does, and else nothing at all.
pub fn follows_its_edge()
    ensures { FollowsItsEdge }
{}

/// A copying body passes on the element that it copies.
pub fn copies_pass()
    ensures { EachCopyPasses }
{}

/// A reset's branch reads no net.
pub fn resets_read_nothing()
    ensures { ResetsReadNothing }
{}

/// The value of an expression that fits is as long as its width, which is 1 to 64.
pub fn has_its_width()
    ensures { HasItsWidth }
{}

/// The parts of a body that fits compare and assign what is as long as it should be, to places and
/// elements that are there.
pub fn parts_are_safe()
    ensures { EachPartIsSafe }
{}

/// All nets that a body that fits reads are there, and all variable elements that it stores.
pub fn reads_are_there()
    ensures { EachReadIsThere }
{}

/// Each entry of a body that fits is that of a driver of its process, and a value of its net's
/// type, and its variables keep their types, where what is seen is of its types.
pub fn entries_keep_types()
    ensures { EntriesKeepTypes }
{}
