//! How formulas and labels are written.

use lio_clauses::{Formula, Names};
use lio_labels::Label;
use lio_messages_hints::Message;

/// The signs between the parts of a formula.
#[derive(Clone, Copy)]
pub(crate) struct Signs {
    /// Between two clauses.
    pub and: &'static str,
    /// Between two principals of a clause.
    pub or: &'static str,
}

/// The signs as a policy's text of labels has them.
pub(crate) const PLAIN: Signs = Signs {
    and: " /\\ ",
    or: " \\/ ",
};

/// The same in a text of JSON.
pub(crate) const QUOTED: Signs = Signs {
    and: " /\\\\ ",
    or: " \\\\/ ",
};

/// Whether a clause has the principal with a number.
fn has(clause: u64, number: u32) -> bool {
    number < 64 && (clause >> number) & 1 == 1
}

/// Whether a clause has several principals.
fn has_several(clause: u64) -> bool {
    let mut is_there = false;
    for number in 0..64 {
        if has(clause, number) {
            if is_there {
                return true;
            }
            is_there = true;
        }
    }
    false
}

/// Writes the principals of a clause, with a word between two of them.
fn write_clause(message: &mut Message, names: &Names, clause: u64, between: &str) {
    let mut is_first = true;
    for number in 0..names.len() {
        if has(clause, number) {
            if !is_first {
                message.words(between);
            }
            message.bytes(names.name(number));
            is_first = false;
        }
    }
}

/// Writes the principals of a clause, in parentheses where they are several.
fn write_part(message: &mut Message, names: &Names, clause: u64, between: &str) {
    if has_several(clause) {
        message.words("(");
        write_clause(message, names, clause, between);
        message.words(")");
    } else {
        write_clause(message, names, clause, between);
    }
}

/// Writes clauses, with words between two of them and between two principals of one.
fn write_parts(message: &mut Message, names: &Names, clauses: &[u64], signs: Signs) {
    let mut is_first = true;
    for clause in clauses {
        if !is_first {
            message.words(signs.and);
        }
        write_part(message, names, *clause, signs.or);
        is_first = false;
    }
}

/// Writes a formula as a policy's text has it.
pub(crate) fn write_formula(message: &mut Message, names: &Names, formula: &Formula, signs: Signs) {
    match formula.clauses() {
        [] => message.words("True"),
        [0] => message.words("False"),
        clauses => write_parts(message, names, clauses, signs),
    }
}

/// Writes a label as a policy's text has it.
pub(crate) fn write_label(message: &mut Message, names: &Names, label: &Label, signs: Signs) {
    write_formula(message, names, &label.secrecy, signs);
    message.words(" %% ");
    write_formula(message, names, &label.integrity, signs);
}

/// Writes the principals of a formula that is neither true nor false.
fn write_people(message: &mut Message, names: &Names, clauses: &[u64]) {
    let signs = Signs {
        and: " and ",
        or: " or ",
    };
    match clauses {
        [clause] => write_clause(message, names, *clause, signs.or),
        clauses => write_parts(message, names, clauses, signs),
    }
}

/// Writes who may learn what has a secrecy.
pub(crate) fn write_readers(message: &mut Message, names: &Names, secrecy: &Formula) {
    match secrecy.clauses() {
        [] => message.words("everyone"),
        [0] => message.words("nobody"),
        clauses => {
            write_people(message, names, clauses);
            match clauses {
                [clause] if has_several(*clause) => message.words(", each alone"),
                [_] => {}
                _ => message.words(" together"),
            }
        }
    }
}

/// Writes who vouches for what has an integrity, where somebody does.
pub(crate) fn write_vouchers(message: &mut Message, names: &Names, integrity: &Formula) {
    match integrity.clauses() {
        [] => {}
        [0] => message.words(", vouched for by everybody"),
        clauses => {
            message.words(", vouched for by ");
            write_people(message, names, clauses);
        }
    }
}
