//! The laws of agendas, over `specs`.

ghost use Rattle.rtl_agenda.specs.Laws.{EachPushIsLast};

/// A change that is pushed comes last among those of its time, and the changes of other times stay.
pub fn each_push_is_last()
    ensures { EachPushIsLast }
{}
