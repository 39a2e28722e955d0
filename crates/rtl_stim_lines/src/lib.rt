//! Stimuli: which value each input of the top has at each time.
//!
//! `specs/Lines.antt`, `specs/Forms.antt` and `specs/Reading.antt` say which lines a stimulus has
//! and which is the first bad one, `specs/Courses.antt` and `specs/Times.antt` the values and the
//! moments, and `specs/Filling.antt` what waits in an agenda.
#![tactic(auto)]

mod courses;
mod faults;
mod forms;
mod inputs;
mod numbers;
mod pairs;
mod reading;
mod schedule;
mod values;
mod words;

pub use courses::Course;
pub use faults::StimFault;
pub use forms::{Form, form_of};
pub use inputs::{Element, Input, InputTable, ValueType, add_input};
pub use numbers::{LATEST, Time, time_of};
pub use pairs::read_pairs;
pub use reading::{line_end, read_schedule};
pub use schedule::Schedule;
pub use values::{integer_for, truth_for};
pub use words::{says_nothing, without_return, words_of};
