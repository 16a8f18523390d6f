//! What other languages write, and what is written in its place.

/// A word or a sign of other languages, and what to write in its place.
#[derive(Clone, Copy)]
pub struct Foreign(&'static str, &'static str);

/// What to write in the place of a word, if it stands in a table.
pub fn mend_in(table: &[Foreign], word: &[u8]) -> Option<&'static str> {
    for foreign in table {
        if foreign.0.as_bytes() == word {
            return Some(foreign.1);
        }
    }
    None
}

/// Signs and words that stand between two values.
pub const SIGNS: [Foreign; 42] = [
    Foreign(">", "exchange the operands and write \"<\""),
    Foreign(">=", "exchange the operands and write \"<=\""),
    Foreign(
        "=>",
        "\"<=\" compares with the operands exchanged, and \"proc P X ..\" begins a procedure",
    ),
    Foreign("=<", "write \"<=\""),
    Foreign("=", "write \"==\""),
    Foreign("===", "write \"==\""),
    Foreign("is", "write \"==\""),
    Foreign("eq", "write \"==\""),
    Foreign("-eq", "write \"==\""),
    Foreign("<>", "write \"!=\""),
    Foreign("!==", "write \"!=\""),
    Foreign("~=", "write \"!=\""),
    Foreign("ne", "write \"!=\""),
    Foreign("-ne", "write \"!=\""),
    Foreign("xor", "write \"!=\", between two flags"),
    Foreign("-lt", "write \"<\""),
    Foreign("-le", "write \"<=\""),
    Foreign("-gt", "exchange the operands and write \"<\""),
    Foreign("-ge", "exchange the operands and write \"<=\""),
    Foreign("&&", "write \"and\""),
    Foreign("&", "write \"and\""),
    Foreign("-a", "write \"and\""),
    Foreign("||", "write \"or\""),
    Foreign("|", "write \"or\""),
    Foreign("-o", "write \"or\""),
    Foreign("..", "\"+\" joins texts, and \"while A\" repeats a block"),
    Foreign("++", "write \"+\""),
    Foreign("concat", "write \"+\""),
    Foreign("//", "write \"/\""),
    Foreign("div", "write \"/\""),
    Foreign("mod", "write \"%\""),
    Foreign("**", "\"*\" multiplies, and \"while A\" repeats it"),
    Foreign(
        "^",
        "\"!=\" between two flags is xor, and there is no power",
    ),
    Foreign("<<", "\"*\" by a power of 2 does that"),
    Foreign(">>", "\"/\" by a power of 2 does that"),
    Foreign("in", "\"B find A\" gives the place of A in B, or -1"),
    Foreign("contains", "\"A find B\" gives the place of B in A, or -1"),
    Foreign("append", "write \"push\""),
    Foreign(
        "as",
        "\"num\" reads a whole from a text, and \"str\" makes a text",
    ),
    Foreign("->", "no value has fields or methods"),
    Foreign("is not", "write \"!=\""),
    Foreign("not in", "\"B find A\" gives the place of A in B, or -1"),
];

const SEND: &str = "\"send C A\" sends the text A to the channel C";

const PROC: &str = "\"proc P X ..\" begins a procedure";

const LET: &str = "\"let X = A\" binds a name";

const ELSE_IF: &str = "\"else\", and an \"if\" with an \"end\" of its own in it";

const END: &str = "\"end\" ends each block";

const WHILE: &str = "\"while A\" repeats a block";

const CHOOSE: &str = "\"if A\", \"else\" and \"end\" choose";

const BLOCK: &str = "a block begins on the next line, and \"end\" ends it";

const WHOLE: &str = "a script is one text, with all its procedures";

const CHILD: &str = "\"fork X L T C P A ..\" starts a child";

const FILES: &str = "inputs and channels are parameters, which the policy gives";

const TYPES: &str = "there are no types, and a list holds several values";

const BOUND: &str = "a name stays bound, and may be bound again";

const OWN: &str = "a procedure has its own names alone, and gets others as parameters";

/// First words of lines.
pub const FIRST: [Foreign; 101] = [
    Foreign("print", SEND),
    Foreign("println", SEND),
    Foreign("println!", SEND),
    Foreign("print!", SEND),
    Foreign("printf", SEND),
    Foreign("puts", SEND),
    Foreign("echo", SEND),
    Foreign("output", SEND),
    Foreign("log", SEND),
    Foreign("console.log", SEND),
    Foreign("def", PROC),
    Foreign("fn", PROC),
    Foreign("func", PROC),
    Foreign("function", PROC),
    Foreign("procedure", PROC),
    Foreign("sub", PROC),
    Foreign("method", PROC),
    Foreign("void", PROC),
    Foreign("pub", PROC),
    Foreign("async", PROC),
    Foreign("lambda", PROC),
    Foreign("var", LET),
    Foreign("const", LET),
    Foreign("set", LET),
    Foreign("val", LET),
    Foreign("local", LET),
    Foreign("mut", LET),
    Foreign("static", LET),
    Foreign("int", LET),
    Foreign("string", LET),
    Foreign("bool", LET),
    Foreign("auto", LET),
    Foreign("export", LET),
    Foreign("elif", ELSE_IF),
    Foreign("elsif", ELSE_IF),
    Foreign("elseif", ELSE_IF),
    Foreign("endif", END),
    Foreign("endwhile", END),
    Foreign("endproc", "\"end\" ends each procedure"),
    Foreign("done", END),
    Foreign("fi", END),
    Foreign("esac", END),
    Foreign("for", WHILE),
    Foreign("foreach", WHILE),
    Foreign("loop", WHILE),
    Foreign("repeat", WHILE),
    Foreign("forever", WHILE),
    Foreign("until", WHILE),
    Foreign("match", CHOOSE),
    Foreign("switch", CHOOSE),
    Foreign("case", CHOOSE),
    Foreign("when", CHOOSE),
    Foreign(
        "unless",
        "\"let X = not A\" turns a flag, and \"if X\" tests it",
    ),
    Foreign("then", BLOCK),
    Foreign("do", BLOCK),
    Foreign("begin", BLOCK),
    Foreign("{", BLOCK),
    Foreign("except", "\"catch X Y\" begins what a fault leads to"),
    Foreign("rescue", "\"catch X Y\" begins what a fault leads to"),
    Foreign(
        "finally",
        "what stands behind the \"end\" of a \"try\" runs in both cases",
    ),
    Foreign("raise", "\"throw A\" throws a fault"),
    Foreign("panic!", "\"throw A\" throws a fault"),
    Foreign("assert", "\"if A\" tests, and \"throw A\" throws a fault"),
    Foreign("exit", "\"stop\" ends the task"),
    Foreign("quit", "\"stop\" ends the task"),
    Foreign("break", "\"while A\" ends once A is false"),
    Foreign("continue", "an \"if\" round the rest of a block skips it"),
    Foreign("pass", "a block may be empty"),
    Foreign("yield", "\"return A\" ends a call with a value"),
    Foreign(
        "join",
        "\"wait X R\" waits for a child, and \"let X = A join B\" joins labels",
    ),
    Foreign("await", "\"wait X R\" waits for a child"),
    Foreign(
        "sleep",
        "nothing waits for a time, and \"wait X R\" waits for a child",
    ),
    Foreign("go", CHILD),
    Foreign("start", CHILD),
    Foreign("run", CHILD),
    Foreign("thread", CHILD),
    Foreign("declassify", "\"relabel X A L P\" releases by a privilege"),
    Foreign("release", "\"relabel X A L P\" releases by a privilege"),
    Foreign("seal", "\"label X L A\" seals A under L"),
    Foreign("unseal", "\"unlabel X A\" learns what is sealed"),
    Foreign("import", WHOLE),
    Foreign("use", WHOLE),
    Foreign("from", WHOLE),
    Foreign("include", WHOLE),
    Foreign("require", WHOLE),
    Foreign("package", WHOLE),
    Foreign("module", WHOLE),
    Foreign("open", FILES),
    Foreign("with", FILES),
    Foreign("input", FILES),
    Foreign("class", TYPES),
    Foreign("struct", TYPES),
    Foreign("enum", TYPES),
    Foreign("type", TYPES),
    Foreign("global", OWN),
    Foreign("nonlocal", OWN),
    Foreign("del", BOUND),
    Foreign("delete", BOUND),
    Foreign("unset", BOUND),
    Foreign("append", "\"let X = A push B\" gives a longer list"),
    Foreign("new", "\"newref X L A\" makes a reference"),
];

/// Operators on one value, and functions.
pub const FUNCTIONS: [Foreign; 13] = [
    Foreign("size", "len"),
    Foreign("length", "len"),
    Foreign("count", "len"),
    Foreign("strlen", "len"),
    Foreign("int", "num"),
    Foreign("parseInt", "num"),
    Foreign("Number", "num"),
    Foreign("atoi", "num"),
    Foreign("string", "str"),
    Foreign("String", "str"),
    Foreign("to_string", "str"),
    Foreign("negate", "neg"),
    Foreign("label_of", "labelof"),
];

const INPUT: &str = "an input is a parameter of the procedure, and \"unlabel X A\" learns it";

const VALUE: &str = "a procedure is no value; \"proc P X ..\" begins one";

/// What is told of `new`.
pub const NEW: &str =
    "there is no \"new\"; values are wholes, texts, flags, labels, unit and lists";

/// First words where a value is wanted, with what is told of them.
pub const VALUES: [Foreign; 7] = [
    Foreign("new", NEW),
    Foreign("typeof", "no operator tells what a value is"),
    Foreign("lambda", VALUE),
    Foreign("function", VALUE),
    Foreign("fn", VALUE),
    Foreign("func", VALUE),
    Foreign("async", VALUE),
];

/// Functions that read, with what is told of them.
pub const READERS: [Foreign; 7] = [
    Foreign("input", INPUT),
    Foreign("open", INPUT),
    Foreign("read_file", INPUT),
    Foreign("readline", INPUT),
    Foreign("prompt", INPUT),
    Foreign("fetch", INPUT),
    Foreign("raw_input", INPUT),
];

const LEN: &str = "no value has methods: let {} = len {}";

const PUSH: &str = "no value has methods: let {} = {} push A";

const FIND: &str = "no value has methods: let {} = {} find A";

const FROM: &str = "no value has methods: let {} = {} from A";

const STR: &str = "no value has methods: let {} = str {}";

const AT: &str = "no value has methods: let {} = {} at A";

/// Methods, with what is told of them, of the name that is bound and of the value.
pub(crate) const METHODS: [Foreign; 19] = [
    Foreign("length", LEN),
    Foreign("len", LEN),
    Foreign("size", LEN),
    Foreign("append", PUSH),
    Foreign("push", PUSH),
    Foreign("add", PUSH),
    Foreign("indexOf", FIND),
    Foreign("find", FIND),
    Foreign("index", FIND),
    Foreign("includes", FIND),
    Foreign("contains", FIND),
    Foreign("slice", FROM),
    Foreign("substring", FROM),
    Foreign("toString", STR),
    Foreign("to_string", STR),
    Foreign("parse", "no value has methods: let {} = num {}"),
    Foreign("get", AT),
    Foreign("at", AT),
    Foreign("concat", "no value has methods: let {} = {} + A"),
];
