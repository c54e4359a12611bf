// What the words of the command line ask for.
ghost use Rattle.std.specs.Prelude.{map, string_bytes, MatchOption};
ghost use Rattle.maildir_commands.specs.Words.{AreOfAForm, AskFor};
ghost use Rattle.maildir_commands.specs.Private.Words.{request};

/// The form in which the messages of a text are written.
#[derive(Clone, Copy)]
pub enum Form {
    /// In their regular spelling.
    Regular,
    /// As a table, with a row for each.
    List,
}

/// A command. Without FILE it reads standard input.
#[derive(Clone, Copy)]
pub enum Command<'a> {
    /// `rewrite [FILE]`, or no words at all, and `list [FILE]`: write the messages of a text.
    Write(Form, Option<&'a str>),
    /// `convert MAILDIR [FILE]...`: deliver the messages of each file, in the order of the words.
    Convert(&'a str, &'a [String]),
}

impl<'a> Command<'a> {
    /// The command that these words give, or `None` if they are of no form. Words are compared as
    /// they stand.
    pub fn of(words: &'a [String]) -> Option<Command<'a>>
        ensures { let these = map string_bytes words.now in
            MatchOption result (¬ AreOfAForm these) (λ command. AskFor these (request command)) }
    {
        let Some((word, rest)) = words.split_first() else {
            return Some(Command::Write(Form::Regular, None));
        };
        match (word.as_str(), rest) {
            ("rewrite", []) => Some(Command::Write(Form::Regular, None)),
            ("rewrite", [file]) => Some(Command::Write(Form::Regular, Some(file.as_str()))),
            ("list", []) => Some(Command::Write(Form::List, None)),
            ("list", [file]) => Some(Command::Write(Form::List, Some(file.as_str()))),
            ("convert", [maildir, files @ ..]) => Some(Command::Convert(maildir.as_str(), files)),
            _ => None,
        }
    }
}
