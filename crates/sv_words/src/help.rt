// The help of each command.
ghost use Rattle.std.specs.Prelude.{◌≡◌};
ghost use Rattle.sv_words.specs.Words.{words_of, help_asked};

use crate::command::CommandName;
use crate::lines::{command_named, line_of};
use std::alloc::{AllocError, Global};

/// The command whose help is asked for: the words are its name and `--help`, and no others.
/// `read_words` does not take such words.
pub fn help_asked(words: &[String]) -> Option<CommandName>
    ensures { result ≡ help_asked (words_of words.now) }
{
    match words {
        [name, word] if word.as_str() == "--help" => command_named(name.as_str()),
        _ => None,
    }
}

/// The help of a command: what it does, how it is called, and its words, one a line. It ends with
/// a line feed.
pub fn help_text(alloc: Global, name: CommandName) -> Result<String, AllocError> {
    let mut line = line_of(alloc, name)?;
    line.render_help()
}
