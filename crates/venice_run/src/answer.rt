//! What a command answers.

use crate::refusal::Refusal;

/// Bytes that are to be saved under a name.
#[derive(Drop)]
pub(crate) struct Save<'a> {
    pub name: &'a str,
    pub bytes: Vec<u8>,
}

/// What a command saves, where it saves, and prints then. The text is whole; where it ends in a refusal's line, `stop`
/// is that refusal.
#[derive(Drop)]
pub(crate) struct Answer<'a> {
    pub save: Option<Save<'a>>,
    pub text: Vec<u8>,
    pub stop: Option<Refusal>,
}

impl<'a> Answer<'a> {
    ghost use Rattle.std.specs.Prelude.{◌≡◌, None, Some, ◌++◌};
    ghost use Rattle.venice_run.specs.Answer.{answer_of, answer_status};

    /// It prints the text.
    pub fn printing(text: Vec<u8>) -> Answer<'a>
        ensures { answer_of result ≡ record { save = None; text = text.items; stop = None } }
    {
        Answer {
            save: None,
            text,
            stop: None,
        }
    }

    /// It saves the bytes under the name, and prints the text.
    pub fn saving(name: &'a str, bytes: Vec<u8>, text: Vec<u8>) -> Answer<'a>
        ensures { answer_of result ≡ record {
          save = Some (record { name = name.now; bytes = bytes.items });
          text = text.items;
          stop = None;
        } }
    {
        Answer {
            save: Some(Save { name, bytes }),
            text,
            stop: None,
        }
    }

    /// The status that comes with it.
    pub fn status(&self) -> u8
        ensures { result ≡ answer_status (answer_of self.now) }
    {
        match self.stop {
            Some(refusal) => refusal.status(),
            None => 0,
        }
    }
}
