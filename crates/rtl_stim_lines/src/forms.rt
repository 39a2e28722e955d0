//! What the words of a line say.

ghost use Rattle.std.specs.Prelude.{◌∷◌, [], map};
ghost use Rattle.rtl_stim_lines.specs.Forms as forms;
ghost use Rattle.rtl_stim_lines.specs.Bounded.{IsFormOf};

use crate::numbers::{Time, time_of};

/// What a line says.
#[derive(Clone, Copy)]
pub enum Form<'a> {
    /// From a time on, an input has a value.
    At {
        time: Time,
        name: &'a [u8],
        value: &'a [u8],
    },
    /// An input is 1 from its first time on for half a period, then 0 for half a period, and so on.
    Clock {
        name: &'a [u8],
        first: Time,
        half: Time,
    },
    /// The last time.
    Stop {
        time: Time,
    },
}

/// What the words say, `None` where they are no line of a stimulus.
pub fn form_of<'a>(words: &[&'a [u8]]) -> Option<Form<'a>>
    ensures { IsFormOf (forms.form_of (map (λ word. word.now) words.now)) result }
{
    if let [keyword, time] = words {
        return two_word_form(keyword, time);
    }
    if let [keyword, second, third, fourth] = words {
        return four_word_form(keyword, second, third, fourth);
    }
    None
}

fn two_word_form<'a>(keyword: &[u8], time: &[u8]) -> Option<Form<'a>>
    ensures { IsFormOf (forms.form_of (keyword.now ∷ time.now ∷ [])) result }
{
    if keyword == b"stop".as_slice() {
        return stop_form(time);
    }
    None
}

fn four_word_form<'a>(
    keyword: &[u8],
    second: &'a [u8],
    third: &'a [u8],
    fourth: &'a [u8],
) -> Option<Form<'a>>
    ensures { IsFormOf (forms.form_of (keyword.now ∷ second.now ∷ third.now ∷ fourth.now ∷ [])) result }
{
    if keyword == b"at".as_slice() {
        return at_form(second, third, fourth);
    }
    if keyword == b"clock".as_slice() {
        return clock_form(second, third, fourth);
    }
    None
}

fn stop_form<'a>(time: &[u8]) -> Option<Form<'a>>
    ensures { IsFormOf (forms.stop_form (forms.number_of time.now)) result }
{
    Some(Form::Stop {
        time: time_of(time)?,
    })
}

fn at_form<'a>(time: &[u8], name: &'a [u8], value: &'a [u8]) -> Option<Form<'a>>
    ensures { IsFormOf (forms.at_form (forms.number_of time.now) name.now value.now) result }
{
    Some(Form::At {
        time: time_of(time)?,
        name,
        value,
    })
}

fn clock_form<'a>(name: &'a [u8], first: &[u8], half: &[u8]) -> Option<Form<'a>>
    ensures { IsFormOf (forms.clock_form name.now (forms.number_of first.now) (forms.number_of half.now)) result }
{
    let first = time_of(first)?;
    let half = time_of(half)?;
    if let Time::At(0) = half {
        return None;
    }
    Some(Form::Clock { name, first, half })
}
