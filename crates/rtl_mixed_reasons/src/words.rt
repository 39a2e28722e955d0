//! What is said of a reason.

ghost use Rattle.rtl_mixed_reasons.specs.Notes.{note_of, IsNote};

use crate::reason::ReasonKind;

/// What is said of a reason: the opening, the name of its net if it names one, the middle, the name
/// of its process or second net if it names one, and the closing. Definitions cite the constants of
/// this type.
#[derive(Clone, Copy)]
pub struct Note<T: Copy> {
    pub opening: T,
    pub middle: T,
    pub closing: T,
}

/// An edge and more in one condition.
pub const GATED_EDGE: Note<&str> = Note {
    opening: "the edge stands beside another condition; put that inside",
    middle: "",
    closing: "",
};

/// Two ifs of one edge.
pub const SECOND_EDGE: Note<&str> = Note {
    opening: "a second if tests the same edge; make them one, or give it a process of its own",
    middle: "",
    closing: "",
};

/// One if in several turns of a loop.
pub const EDGE_IN_LOOP: Note<&str> = Note {
    opening: "the edge stands inside a loop; put the loop inside it",
    middle: "",
    closing: "",
};

/// Two ifs of two edges that assign no net both.
pub const OTHER_EDGE: Note<&str> = Note {
    opening: "a second if tests another edge; give it a process of its own",
    middle: "",
    closing: "",
};

/// Two ifs of two edges that assign one net.
pub const OTHER_EDGE_TOO: Note<&str> = Note {
    opening: "a second if tests another edge and assigns ",
    middle: " too; a net is clocked by one edge",
    closing: "",
};

/// A reset behind the edge.
pub const RESET_BEHIND: Note<&str> = Note {
    opening: "the reset ",
    middle: " stands behind the edge; put it first, and give what it doesn't reset a process of its own",
    closing: "",
};

/// A reset that a process drives.
pub const RESET_DRIVEN: Note<&str> = Note {
    opening: "the reset ",
    middle: " is driven by ",
    closing: ", and is no in port of the top; make it one, or test it inside the if with the edge",
};

/// A reset that no process drives, and that is no in port of the top.
pub const RESET_NO_INPUT: Note<&str> = Note {
    opening: "the reset ",
    middle: " is no in port of the top; make it one, or test it inside the if with the edge",
    closing: "",
};

/// A reset's branch that reads a net.
pub const RESET_READS: Note<&str> = Note {
    opening: "the reset's branch reads ",
    middle: "; a reset assigns constants, and other values are assigned inside the edge",
    closing: "",
};

/// A reset's branch with more than assignments to signals.
pub const RESET_COMPUTES: Note<&str> = Note {
    opening: "the reset's branch has an if, a case, a variable, or a test that a boolean takes; a reset assigns constants",
    middle: "",
    closing: "",
};

/// Another condition before the edge than a reset's test.
pub const NO_RESET_TEST: Note<&str> = Note {
    opening: "a condition before the edge isn't rst = '1' or rst = '0'",
    middle: "",
    closing: "",
};

/// Another condition behind the edge than a reset's test.
pub const NO_TEST_BEHIND: Note<&str> = Note {
    opening: "a condition behind the edge isn't rst = '1' or rst = '0'; make one net of it, or put that if inside the edge",
    middle: "",
    closing: "",
};

/// Several resets before the edge.
pub const SEVERAL_RESETS: Note<&str> = Note {
    opening: "several resets stand before the edge; a register has one",
    middle: "",
    closing: "",
};

/// An else or an elsif behind the edge.
pub const BEHIND_EDGE: Note<&str> = Note {
    opening: "an else or an elsif stands behind the edge; leave it out, since a register keeps its value without one",
    middle: "",
    closing: "",
};

/// An assignment beside the if with the edge.
pub const BESIDE: Note<&str> = Note {
    opening: "beside the edge it assigns ",
    middle: "; give that a process of its own",
    closing: "",
};

/// An assignment beside the if with the edge, of a net that this assigns too.
pub const BESIDE_TOO: Note<&str> = Note {
    opening: "beside the edge it assigns ",
    middle: ", as the if with the edge does; put both into one if",
    closing: "",
};

/// Another statement beside it.
pub const STANDS_BESIDE: Note<&str> = Note {
    opening: "something stands beside the if with the edge; a register is one if and nothing else",
    middle: "",
    closing: "",
};

/// An edge or an event in a condition that is no edge.
pub const NO_EDGE: Note<&str> = Note {
    opening: "a condition with an edge or 'event isn't rising_edge(clk), falling_edge(clk), or clk'event and clk = '1'; a register has one edge",
    middle: "",
    closing: "",
};

/// An edge or an event deeper in a statement.
pub const EDGE_INSIDE: Note<&str> = Note {
    opening: "an edge or 'event stands inside this statement; a register has one edge, as its if's whole condition",
    middle: "",
    closing: "",
};

/// A reset that looks at what a process drives.
pub const UNSTEADY_GATE: Note<&str> = Note {
    opening: "the reset may pulse within a moment: ",
    middle: " looks at ",
    closing: "; make that net of in ports alone, or give it a register of its own",
};

/// A reset that looks at a clock.
pub const UNSTEADY_CLOCK: Note<&str> = Note {
    opening: "the reset may pulse within a moment: ",
    middle: " looks at the clock ",
    closing: "; make that net of other in ports, or give it a register of its own",
};

/// A register that is reset itself, to a value at which it doesn't reset the other.
pub const UNSTEADY_REGISTER: Note<&str> = Note {
    opening: "the reset may pulse within a moment: the register ",
    middle: " is reset by ",
    closing: ", but not to the value at which it resets; reset it to that value, or both by one, or make that reset of in ports alone and start the register with its reset's value",
};

/// A reset that copies a net which leaves its starting value at once.
pub const UNSTEADY_START: Note<&str> = Note {
    opening: "the reset may pulse at the start: it copies ",
    middle: ", which starts with a value at which it holds; start that net with the other",
    closing: "",
};

/// A reset that copies itself.
pub const UNSTEADY_CIRCLE: Note<&str> = Note {
    opening: "the reset may pulse within a moment: ",
    middle: " depends on itself",
    closing: "",
};

impl ReasonKind {
    /// What is said of it.
    pub fn note(self) -> Note<&'static str>
        ensures { IsNote (note_of self) result }
    {
        match self {
            ReasonKind::GatedEdge => GATED_EDGE,
            ReasonKind::SecondEdge => SECOND_EDGE,
            ReasonKind::EdgeInLoop => EDGE_IN_LOOP,
            ReasonKind::OtherEdge => OTHER_EDGE,
            ReasonKind::OtherEdgeToo => OTHER_EDGE_TOO,
            ReasonKind::ResetBehind => RESET_BEHIND,
            ReasonKind::ResetDriven => RESET_DRIVEN,
            ReasonKind::ResetNoInput => RESET_NO_INPUT,
            ReasonKind::ResetReads => RESET_READS,
            ReasonKind::ResetComputes => RESET_COMPUTES,
            ReasonKind::NoResetTest => NO_RESET_TEST,
            ReasonKind::NoTestBehind => NO_TEST_BEHIND,
            ReasonKind::SeveralResets => SEVERAL_RESETS,
            ReasonKind::BehindEdge => BEHIND_EDGE,
            ReasonKind::Beside => BESIDE,
            ReasonKind::BesideToo => BESIDE_TOO,
            ReasonKind::StandsBeside => STANDS_BESIDE,
            ReasonKind::NoEdge => NO_EDGE,
            ReasonKind::EdgeInside => EDGE_INSIDE,
            ReasonKind::UnsteadyGate => UNSTEADY_GATE,
            ReasonKind::UnsteadyClock => UNSTEADY_CLOCK,
            ReasonKind::UnsteadyRegister => UNSTEADY_REGISTER,
            ReasonKind::UnsteadyStart => UNSTEADY_START,
            ReasonKind::UnsteadyCircle => UNSTEADY_CIRCLE,
        }
    }
}
