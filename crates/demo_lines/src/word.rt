ghost use Rattle.std.specs.Prelude.{◌≡◌, Some, false};
ghost use Rattle.arena_map.specs.Reading.{is_word_of_play};
ghost use Rattle.demo_lines.specs.Words as words;
ghost use Rattle.demo_lines.specs.declared.word.Word.TheVariants.{OfMap};

use crate::stage::Stage;
use arena_map::MapWord;

/// The word with which a line of a recording begins.
#[derive(Clone, Copy, Debug, PartialEq, Eq)]
pub enum Word {
    /// A word of the map.
    OfMap(MapWord),
    /// A frame begins.
    Frame,
    /// A packet from a port.
    From,
    /// The recording ends.
    End,
}

impl Word {
    ghost use Rattle.std.specs.Prelude.{◌≡◌, Some, false};
    ghost use Rattle.arena_map.specs.declared.map_word.MapWord.{MapWord};
    ghost use Rattle.arena_map.specs.Reading.{is_word_of_play};
    ghost use Rattle.demo_lines.specs.Words as words;

    /// The word that is written so. `None` exactly where the text is no word of a recording.
    pub fn read(text: &[u8]) -> Option<Word>
        ensures value { result ≡ words.word_in text.now }
        ensures of_map { (word : MapWord) → result ≡ Some (Word.OfMap word) → is_word_of_play text.now ≡ false }
    {
        if text == b"frame".as_slice() {
            Some(Word::Frame)
        } else if text == b"from".as_slice() {
            Some(Word::From)
        } else if text == b"end".as_slice() {
            Some(Word::End)
        } else {
            MapWord::read(text).map(Word::OfMap)
        }
    }

    /// Whether a line with this word is allowed at this stage.
    pub fn is_allowed(self, stage: Stage) -> bool
        ensures { result ≡ words.is_allowed stage self }
    {
        match stage {
            Stage::Start => matches!(self, Word::OfMap(MapWord::Arena)),
            Stage::Map => !matches!(self, Word::OfMap(MapWord::Arena) | Word::From),
            Stage::Playing => !matches!(self, Word::OfMap(_)),
            Stage::Ended | Stage::Refused(_) => false,
        }
    }
}
