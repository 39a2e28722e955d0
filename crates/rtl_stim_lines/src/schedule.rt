//! The course of each input, and the stop.

ghost use Rattle.std.specs.Prelude.{◌≡◌, ◌<◌, vec_len};
ghost use Rattle.rtl_stim_lines.specs.Courses.{course_value};
ghost use Rattle.rtl_stim_lines.specs.View.{schedule_view, course_in};

use crate::courses::Course;
use vhdl_values::Nine;

/// The course of each input, and the time of the stop.
#[derive(Drop)]
pub struct Schedule {
    pub courses: Vec<Course>,
    pub stop: u64,
}

impl Schedule {
    /// The value at a time of an element of an input: of the input at this place, the element at
    /// its place from the left, whose default is `start`.
    pub fn value(&self, input: usize, place: usize, start: Nine, time: u64) -> Nine
        requires { input < vec_len self.now.courses }
        ensures { result ≡ course_value (course_in (schedule_view self.now) input) place start time }
    {
        self.courses[input].value(place, start, time)
    }
}
