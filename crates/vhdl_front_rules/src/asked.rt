//! What a front is asked for.

ghost use Rattle.std.specs.Prelude.{◌≡◌};
ghost use Rattle.vhdl_front_rules.specs.Asking as definition;
ghost use Rattle.vhdl_front_rules.specs.Asking.{asked_view};

use vhdl_expand_rules::Top;
use vhdl_lexer::Language;

/// The netlist of a source, which has the bytes of one file and is read in a language, under a top.
#[derive(Clone, Copy)]
pub struct Asked<'a> {
    pub language: Language,
    pub source: &'a [u8],
    pub top: Top<'a>,
}

impl<'a> Asked<'a> {
    /// In the language of docs/LANGUAGE.md, with no generic of the top set.
    pub fn plain(source: &'a [u8], top: &'a [u8]) -> Asked<'a>
        ensures { asked_view result ≡ definition.plainly source.now top.now }
    {
        let top = Top {
            name: top,
            generics: &[],
        };
        Asked {
            language: Language::Profile,
            source,
            top,
        }
    }

    /// The same of another source.
    pub fn of_text(self, source: &'a [u8]) -> Asked<'a>
        ensures { asked_view result ≡ definition.of_text (asked_view self.entry) source.now }
    {
        Asked {
            language: self.language,
            source,
            top: self.top,
        }
    }

    /// The same in the wider language.
    pub fn widely(self) -> Asked<'a>
        ensures { asked_view result ≡ definition.widely (asked_view self.entry) }
    {
        Asked {
            language: Language::Wide,
            source: self.source,
            top: self.top,
        }
    }
}
