//! Rows of the kernel: netlists whose processes run in several orders, with what they come to step
//! by step, their bodies as trees and as codes. Of a step it is told in how many delta cycles it
//! settles of how many at most, the values of all nets as codes (0 for 'U', 1 for 'X', 2 for '0'
//! and 3 for '1'), whether no driver is active, and of each body which run of all its last one was.

use crate::bodies::Bodies;
use crate::courses::{
    COUNTER, CUT_COUNTER, Course, FALLING_BACK, OSCILLATOR_FROM_0, OSCILLATOR_FROM_U, REGISTERS,
    SIBLINGS, TWO_DRIVERS,
};
use crate::nets::Nets;
use crate::pickers::{Asked, Order};
use crate::stepping::tell_course;
use byte_streams::{Sink, push_line};
use std::alloc::Global;

const ROWS: &[(&str, &Course, Order)] = &[
    ("counter, forward", COUNTER, Order::Forward),
    ("counter, reverse", COUNTER, Order::Reverse),
    ("counter, cut", CUT_COUNTER, Order::Forward),
    ("registers, forward", REGISTERS, Order::Forward),
    ("registers, reverse", REGISTERS, Order::Reverse),
    ("registers, recorded", REGISTERS, Order::First),
    ("registers, falling back", FALLING_BACK, Order::Forward),
    ("oscillator from 'U'", OSCILLATOR_FROM_U, Order::Forward),
    ("oscillator from '0'", OSCILLATOR_FROM_0, Order::Forward),
    ("two drivers", TWO_DRIVERS, Order::Forward),
    ("siblings", SIBLINGS, Order::Forward),
];

/// Tells the rows of the kernel, for bodies as trees and for bodies as codes.
pub fn tell_orders<N: Nets, S: Sink>(alloc: Global, nets: &N, out: &mut S) {
    push_line(out, b"bodies as trees");
    tell_form(alloc, nets, Bodies::Trees, out);
    push_line(out, b"bodies as codes");
    tell_form(alloc, nets, Bodies::Codes, out);
}

fn tell_form<N: Nets, S: Sink>(alloc: Global, nets: &N, form: Bodies, out: &mut S) {
    for (head, course, order) in ROWS {
        push_line(out, head.as_bytes());
        let mut pick = Asked {
            order: *order,
            counts: Vec::new(alloc),
        };
        tell_course(alloc, nets, course, form, &mut pick, out);
        pick.tell(out);
    }
}
