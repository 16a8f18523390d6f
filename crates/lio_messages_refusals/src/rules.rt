//! What the rules of policies and of scripts ask.

/// What a rule of policies asks.
pub(crate) fn policy_rule(rule: u32) -> &'static str {
    match rule {
        1 => "a policy is a JSON text of at most 1048576 bytes",
        2 => { "each object has exactly its keys, each with a value of its kind" }
        3 => "`version` is 1 or 2",
        4 => {
            "a name has 1 to 32 bytes of `a` to `z`, `0` to `9` and `_`, begins with a letter, and stands once in its list; there are at most 64 principals"
        }
        5 => {
            "a label is two formulas with `%%` between them, a formula is made of principals of this policy with `/\\`, `\\/` and parentheses, or `True` or `False`, and has at most 64 clauses"
        }
        6 => "a task's label flows to its clearance",
        7 => "an argument names an input or a channel of this policy",
        8 => {
            "`longest` is 1 to 65536, and times the turns of all tasks at most 1073741824; there are at most 256 channels, inputs and tasks each, 1048576 turns and 65536 cells in all; a task has at most 8 arguments, and no text longer than `longest`; in version 2 `longest` and these numbers of entries, turns and cells may be four times as large, and a list is at most 8 deep, at most `longest` in size, and has at most four inputs"
        }
        _ => {
            "a file's name has 1 to 255 bytes, no zero byte, doesn't begin with `-`, and stands once among the files of channels and inputs"
        }
    }
}

/// What a rule of scripts asks.
pub(crate) fn script_rule(rule: u32) -> &'static str {
    match rule {
        1 => {
            "a line is one of the forms of the language, and a label in it is one over the principals of the policy"
        }
        2 => "each procedure and each block ends with `end`, and no line stands where it can't",
        3 => "a procedure that is called, forked or spawned has a `proc` line",
        4 => "a procedure is given as many arguments as its first `proc` line has parameters",
        5 => "the name of a procedure stands on one `proc` line alone",
        6 => "the parameters of a procedure have different names",
        _ => {
            "a script has at most 262144 bytes, 8192 lines, 512 procedures, and 64 blocks that are open in a procedure"
        }
    }
}
