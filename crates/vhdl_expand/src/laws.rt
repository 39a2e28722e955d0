//! What counting a body tells of the body (IEEE 1076-2008, 10.10).

ghost use Rattle.vhdl_expand.specs.Laws.{CountedAsUnrolled};

/// What a body costs, counted over its text, is the turns of its loops and the statements of the
/// body that it is expanded to. A law: it computes nothing.
pub fn bodies_are_counted_as_unrolled()
    ensures { CountedAsUnrolled }
{}
