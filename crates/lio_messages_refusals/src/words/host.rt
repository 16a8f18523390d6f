//! The words of the host.

use crate::words::{tell_label, text_of};
use lio_front::{Command, Watch, read_command};
use lio_messages_hints::{Message, Piece, is_similar};

/// An option.
#[derive(Clone, Copy, PartialEq, Eq)]
enum Flag {
    History,
    View,
    Observer,
    Make,
    Workers,
    Check,
}

/// The options.
const FLAGS: [Flag; 6] = [
    Flag::History,
    Flag::View,
    Flag::Observer,
    Flag::Make,
    Flag::Workers,
    Flag::Check,
];

impl Flag {
    /// Its word.
    fn word(self) -> &'static str {
        match self {
            Flag::History => "--history",
            Flag::View => "--view",
            Flag::Observer => "--observer",
            Flag::Make => "--make",
            Flag::Workers => "--workers",
            Flag::Check => "--check",
        }
    }

    /// The greatest number that may be its value, where that is a number.
    fn most(self) -> Option<u16> {
        match self {
            Flag::Make => Some(256),
            Flag::Workers => Some(64),
            Flag::History | Flag::View | Flag::Observer | Flag::Check => None,
        }
    }
}

/// What is wrong with the value of an option, if something is.
fn value_fault(flag: Flag, value: &str) -> Option<&'static str> {
    if !may_stand(value) {
        return Some(
            "the value of `{}` may not be \"{}\": a value isn't empty and doesn't begin with `-`",
        );
    }
    match flag.most() {
        Some(most) if is_up_to(most, value) => None,
        Some(256) => Some(
            "the value of `{}` may not be \"{}\": it is a number from 1 to 256, without a sign or a zero in front",
        ),
        Some(_) => Some(
            "the value of `{}` may not be \"{}\": it is a number from 1 to 64, without a sign or a zero in front",
        ),
        None => None,
    }
}

/// What a word is, as the walk over the words takes it.
#[derive(Clone, Copy)]
enum Kind<'a> {
    Dashes,
    Option(Flag),
    OptionAndValue(Flag, &'a str),
    Plain,
}

/// What a word is among options and plain words.
fn kind_of(word: &str) -> Kind<'_> {
    if word == "--" {
        return Kind::Dashes;
    }
    for flag in FLAGS {
        if let Some(rest) = word.strip_prefix(flag.word()) {
            if rest.is_empty() {
                return Kind::Option(flag);
            }
            if let Some(value) = rest.strip_prefix("=") {
                return Kind::OptionAndValue(flag, value);
            }
        }
    }
    Kind::Plain
}

/// The option that may have been meant by a word that is none.
fn flag_meant(word: &str) -> Option<Flag> {
    let name = word.split("=").next().unwrap_or(word);
    for flag in FLAGS {
        let is_other = name.starts_with("-") && name != flag.word();
        if is_other && is_similar(name.as_bytes(), flag.word().as_bytes()) {
            return Some(flag);
        }
    }
    None
}

/// What is wrong with the words: what is told of it, and what stands in that.
#[derive(Clone, Copy)]
struct Wrong<'a> {
    template: &'static str,
    first: Piece<'a>,
    second: Piece<'a>,
}

/// What is told of a word.
fn of_word<'a>(template: &'static str, word: &'a str) -> Wrong<'a> {
    Wrong {
        template,
        first: Piece::Shown(word.as_bytes()),
        second: Piece::Nothing,
    }
}

/// What is told of an option and a word.
fn of_flag<'a>(template: &'static str, flag: Flag, word: &'a str) -> Wrong<'a> {
    Wrong {
        template,
        first: Piece::Words(flag.word()),
        second: Piece::Shown(word.as_bytes()),
    }
}

/// Whether a word may be a name or a value.
fn may_stand(word: &str) -> bool {
    !word.is_empty() && !word.starts_with("-")
}

/// Whether a word is a number from 1 to this one.
fn is_up_to(most: u16, word: &str) -> bool {
    for byte in word.as_bytes() {
        if !byte.is_ascii_digit() {
            return false;
        }
    }
    match word.parse::<u16>() {
        Ok(number) => !word.starts_with("0") && 1 <= number && number <= most,
        Err(_) => false,
    }
}

/// The names and the options so far.
#[derive(Clone, Copy)]
struct Seen<'a> {
    policy: Option<&'a str>,
    script: Option<&'a str>,
    history: bool,
    view: bool,
    observer: bool,
    make: bool,
    workers: bool,
    check: bool,
}

impl<'a> Seen<'a> {
    /// Nothing.
    fn nothing() -> Seen<'a> {
        Seen {
            policy: None,
            script: None,
            history: false,
            view: false,
            observer: false,
            make: false,
            workers: false,
            check: false,
        }
    }

    /// Whether an option has come.
    fn has(&mut self, flag: Flag) -> &mut bool {
        match flag {
            Flag::History => &mut self.history,
            Flag::View => &mut self.view,
            Flag::Observer => &mut self.observer,
            Flag::Make => &mut self.make,
            Flag::Workers => &mut self.workers,
            Flag::Check => &mut self.check,
        }
    }

    /// Takes a plain word, unless it may not stand.
    fn take_name(&mut self, word: &'a str) -> Option<Wrong<'a>> {
        if let Some(flag) = flag_meant(word) {
            return Some(Wrong {
                template: "\"{}\" is no option; `{}` is",
                first: Piece::Shown(word.as_bytes()),
                second: Piece::Words(flag.word()),
            });
        }
        if !may_stand(word) {
            let template =
                "\"{}\" is no option, and no name: a name isn't empty and doesn't begin with `-`";
            return Some(of_word(template, word));
        }
        match (self.policy, self.script) {
            (None, _) => self.policy = Some(word),
            (_, None) => self.script = Some(word),
            _ => {
                let template =
                    "\"{}\" is a third name; there are to be two, the policy's and the script's";
                return Some(of_word(template, word));
            }
        }
        None
    }

    /// Takes an option and its value, unless they may not stand.
    fn take_value(&mut self, flag: Flag, value: &'a str) -> Option<Wrong<'a>> {
        if let Some(template) = value_fault(flag, value) {
            return Some(of_flag(template, flag, value));
        }
        let has = self.has(flag);
        if *has {
            return Some(of_flag("`{}` comes twice; each option comes once", flag, value));
        }
        *has = true;
        None
    }

    /// What is wrong with the names, if something is.
    fn wrong_names(self) -> Option<Wrong<'a>> {
        match (self.policy, self.script) {
            (None, _) if self.make => None,
            (Some(name), _) if self.make => Some(of_word(
                "\"{}\" is a name, and with `--make` there is to be none",
                name,
            )),
            (None, _) => Some(of_word("the names of the policy and of the script are missing", "")),
            (Some(policy), None) => Some(of_word(
                "the name of the script is missing behind \"{}\", the policy's",
                policy,
            )),
            (Some(_), Some(_)) => None,
        }
    }

    /// What is wrong with what has come, if something is.
    fn wrong_whole(self) -> Option<Wrong<'a>> {
        if self.view && !self.observer {
            return Some(of_flag("`{}` needs `{}` beside it", Flag::View, "--observer"));
        }
        if self.observer && !self.view {
            return Some(of_flag("`{}` needs `{}` beside it", Flag::Observer, "--view"));
        }
        if self.workers && self.check {
            let template = "`{}` and `{}` exclude each other";
            return Some(of_flag(template, Flag::Workers, "--check"));
        }
        self.wrong_names()
    }
}

/// What is wrong with the words: at the first that may not stand at its place, or with the whole.
fn wrong_words(words: &[String]) -> Option<Wrong<'_>> {
    let mut seen = Seen::nothing();
    let mut behind = None;
    let mut only_plain = false;
    for word in words {
        let word = word.as_str();
        let wrong = match (behind, kind_of(word)) {
            (Some(flag), _) => {
                behind = None;
                seen.take_value(flag, word)
            }
            (None, Kind::Dashes) if !only_plain => {
                only_plain = true;
                None
            }
            (None, Kind::Option(flag)) if !only_plain => {
                behind = Some(flag);
                None
            }
            (None, Kind::OptionAndValue(flag, value)) if !only_plain => {
                seen.take_value(flag, value)
            }
            _ => seen.take_name(word),
        };
        if wrong.is_some() {
            return wrong;
        }
    }
    match behind {
        Some(flag) => Some(of_flag("`{}` has no value behind it", flag, "")),
        None => seen.wrong_whole(),
    }
}

/// Tells of words that give no command, or whose label isn't read.
pub(crate) fn tell_host_words(message: &mut Message, words: &[String]) {
    if let Some(
        Command {
            view: Some(Watch { label, .. }),
            ..
        },
    ) = read_command(words)
    {
        tell_label(message, text_of(label));
        return;
    }
    if words.is_empty() {
        message.words(
            "the names of the policy and of the script are missing, or a word isn't UTF-8",
        );
        return;
    }
    match wrong_words(words) {
        Some(wrong) => message.fill(wrong.template, wrong.first, wrong.second, Piece::Nothing),
        None => message.words("the words give no command"),
    }
}
