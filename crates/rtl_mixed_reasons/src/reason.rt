//! Reasons.

ghost use Rattle.std.specs.Prelude.{◌≡◌};
ghost use Rattle.rtl_mixed_reasons.specs.Notes.{number_of};
ghost use Rattle.rtl_mixed_reasons.specs.Reasons as spec;

/// What makes a process neither clocked nor combinational, or its reset one that may pulse within a
/// moment.
#[derive(Clone, Copy)]
pub enum ReasonKind {
    /// In a condition of this if `and` joins an edge with something else that has no event.
    GatedEdge,
    /// This if tests the edge that an if before it tests.
    SecondEdge,
    /// The same of two turns of one loop.
    EdgeInLoop,
    /// This if tests another edge than an if before it, and both assign no net in common.
    OtherEdge,
    /// It does, and the net is the first that both assign.
    OtherEdgeToo,
    /// This if resets by the net what the edge's branch assigns, and stands behind the one with the
    /// edge.
    ResetBehind,
    /// The reset of this if is no in port of the top. The process is the first that drives it.
    ResetDriven,
    /// The same of a reset that no process drives.
    ResetNoInput,
    /// The branch of the reset reads the net.
    ResetReads,
    /// An if or a case stands in the branch of the reset, or an assignment of a variable: where the
    /// netlist is wide, one beside a value that looks at a variable that isn't known.
    ResetComputes,
    /// A condition before the edge isn't the test of a reset.
    NoResetTest,
    /// This if stands behind the edge, where the netlist is wide, and its condition isn't the test
    /// of a reset.
    NoTestBehind,
    /// Several resets are tested before the edge.
    SeveralResets,
    /// An else or an elsif stands behind the edge, or in an if there, where the netlist is wide.
    BehindEdge,
    /// A statement beside the if with the edge assigns the net, which that if doesn't assign.
    Beside,
    /// A statement beside the if with the edge assigns the net, which that if assigns too.
    BesideToo,
    /// A statement stands beside the if with the edge, and none beside it assigns a net.
    StandsBeside,
    /// A condition of this if looks for an event, and isn't an edge.
    NoEdge,
    /// An edge or an event stands inside this statement.
    EdgeInside,
    /// The reset may pulse: the net, which is the reset's or one that it copies, as below, looks at
    /// the second net, which a process drives.
    UnsteadyGate,
    /// It may, and the net looks at the second net, which is a clock.
    UnsteadyClock,
    /// It may, and the net is a register that the second net resets, to a value at which the reset
    /// doesn't hold.
    UnsteadyRegister,
    /// It may: the net is copied, and starts with a value at which the reset holds, to leave it at
    /// once.
    UnsteadyStart,
    /// It may, and the net depends on itself.
    UnsteadyCircle,
}

/// Why a process is neither clocked nor combinational, or has a reset that may pulse.
#[derive(Clone, Copy)]
pub struct Reason {
    pub kind: ReasonKind,
    /// The byte of the source at which the statement starts of which it is told, or, where the
    /// netlist has no place for that, the if with the edge.
    pub at: u32,
    /// The net that it names.
    pub net: Option<usize>,
    /// The process that it names.
    pub driver: Option<usize>,
    /// The second net that it names. It names no process then.
    pub second: Option<usize>,
}

impl Reason {
    /// One that names nothing.
    pub(crate) fn plain(kind: ReasonKind, at: u32) -> Reason
        ensures { result ≡ spec.plain kind at }
    {
        Reason {
            kind,
            at,
            net: None,
            driver: None,
            second: None,
        }
    }

    /// One that names a net.
    pub(crate) fn naming(kind: ReasonKind, at: u32, net: usize) -> Reason
        ensures { result ≡ spec.naming kind at net }
    {
        Reason {
            kind,
            at,
            net: Some(net),
            driver: None,
            second: None,
        }
    }

    /// One that names two nets.
    pub(crate) fn naming_two(kind: ReasonKind, at: u32, net: usize, second: usize) -> Reason
        ensures { result ≡ spec.naming_two kind at net second }
    {
        Reason {
            kind,
            at,
            net: Some(net),
            driver: None,
            second: Some(second),
        }
    }
}

impl ReasonKind {
    /// Its number, in the order in which reasons are told.
    pub fn number(self) -> u8
        ensures { result ≡ number_of self }
    {
        match self {
            ReasonKind::GatedEdge => 1,
            ReasonKind::SecondEdge => 2,
            ReasonKind::EdgeInLoop => 3,
            ReasonKind::OtherEdge | ReasonKind::OtherEdgeToo => 4,
            ReasonKind::ResetBehind => 5,
            ReasonKind::ResetDriven | ReasonKind::ResetNoInput => 6,
            ReasonKind::ResetReads => 7,
            ReasonKind::ResetComputes => 8,
            ReasonKind::NoResetTest | ReasonKind::NoTestBehind => 9,
            ReasonKind::SeveralResets => 10,
            ReasonKind::BehindEdge => 11,
            ReasonKind::Beside => 12,
            ReasonKind::BesideToo => 13,
            ReasonKind::StandsBeside => 14,
            ReasonKind::NoEdge => 15,
            ReasonKind::EdgeInside => 16,
            ReasonKind::UnsteadyGate => 17,
            ReasonKind::UnsteadyClock => 18,
            ReasonKind::UnsteadyRegister => 19,
            ReasonKind::UnsteadyStart => 20,
            ReasonKind::UnsteadyCircle => 21,
        }
    }
}
