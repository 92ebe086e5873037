// Forms of Verilog that are left out, by the words that refusals tell: what is said of each.
use crate::tables::{Hint, hint_on};

const LEFT_OUT: &str = "this form of Verilog is left out";

const NAMED_EVENT: &str = "named events are left out: one clock edge drives all registers";

const ONE_EDGE: &str =
    "a block waits for one edge: write `always @(posedge clk)`, and ask the reset inside";

const LEXICAL: [Hint; 10] = [
    (
        b"directive",
        "this directive is left out: take macros and includes away by a preprocessor, as `iverilog \
         -E` is",
    ),
    (
        b"escaped-name",
        "names with `\\` are left out: a name is letters, digits, `_` and `$`",
    ),
    (
        b"string",
        "strings are left out: take away what only a simulation prints",
    ),
    (
        b"system-name",
        "system tasks and functions are left out: take the call away; for `$clog2` write the \
         number, and for `$signed` declare a `signed` wire",
    ),
    (
        b"case-equality",
        "`===` and `!==` are left out, since no signal is x or z: write `==` or `!=`",
    ),
    (b"power", "`**` is left out: write the value, or shift a 1"),
    (
        b"indexed-part",
        "`+:` and `-:` are left out: where it is read, shift the signal into a wire, and take the \
         lowest part of that; where it is assigned, pick the part by `case`",
    ),
    (b"event", NAMED_EVENT),
    (
        b"real",
        "numbers with a point are left out: a signal holds whole numbers",
    ),
    (
        b"four-state",
        "`x`, `z` and `?` are left out, since every bit is 0 or 1: write a value, and ask the bits \
         by `if` in place of `casez`",
    ),
];

/// What is said of a lexical form.
pub fn lexical_form(word: &[u8]) -> &'static str {
    hint_on(word, &LEXICAL).unwrap_or(LEFT_OUT)
}

const GRAMMAR: [Hint; 10] = [
    (
        b"header-names",
        "names alone in a header are left out: declare each port there, as in `input [7:0] a`",
    ),
    (
        b"attribute",
        "attributes are left out: take `(* .. *)` away",
    ),
    (
        b"delay",
        "delays are left out: take `#` and the number away",
    ),
    (
        b"reg-init",
        "a start value of a `reg` is left out: set it by a reset at the clock",
    ),
    (
        b"memory",
        "a range stands before the name, as in `wire [7:0] a`; only a `reg` declared alone can be \
         a memory, and those are not built yet",
    ),
    (
        b"target-select",
        "an `assign` sets whole signals: join the bits on its right side, or assign the part in an \
         `always`",
    ),
    (
        b"event-control",
        "`@` inside a block is left out: only an `always` waits for an edge",
    ),
    (
        b"sensitivity-list",
        "sensitivity lists are left out: write `always @*`",
    ),
    (b"several-events", ONE_EDGE),
    (
        b"hierarchical-name",
        "a name into an instance is left out: link the signal to an output of the module",
    ),
];

/// What is said of a form of the grammar.
pub fn grammar_form(word: &[u8]) -> &'static str {
    match hint_on(word, &GRAMMAR) {
        Some(hint) => hint,
        None => word_form(word),
    }
}

const LOOP: &str = "loops are left out: write the copies out, or print them by a script";

const FUNCTION: &str =
    "functions and tasks are left out: make each a module, and each call an instance";

const CASES: &str = "`casez` and `casex` are left out: ask the bits by `if`, the first arm first";

const TYPE: &str =
    "this type is left out: declare a `reg` of so many bits, and a parameter without a type";

const TIMING: &str = "timing is left out: take the `specify` block away";

const SIMULATED: &str = "this statement is left out: it only serves a simulation";

const WORDS: [Hint; 32] = [
    (
        b"initial",
        "`initial` is left out: reset the register at the clock; for `sim` a line `start` of the \
         stimulus sets it",
    ),
    (b"for", LOOP),
    (b"while", LOOP),
    (b"repeat", LOOP),
    (b"forever", LOOP),
    (b"generate", LOOP),
    (b"genvar", LOOP),
    (b"function", FUNCTION),
    (b"endfunction", FUNCTION),
    (b"task", FUNCTION),
    (b"endtask", FUNCTION),
    (b"casex", CASES),
    (b"casez", CASES),
    (
        b"inout",
        "`inout` is left out: give the pad an input, an output and an enable, and keep it outside",
    ),
    (b"integer", TYPE),
    (b"real", TYPE),
    (b"realtime", TYPE),
    (b"time", TYPE),
    (b"event", NAMED_EVENT),
    (b"macromodule", "`macromodule` is left out: write `module`"),
    (b"or", ONE_EDGE),
    (
        b"negedge",
        "the falling edge is left out: registers take their values at `posedge`",
    ),
    (
        b"defparam",
        "`defparam` is left out: set parameters at the instance, as `#(.W(8))`",
    ),
    (b"specify", TIMING),
    (b"specparam", TIMING),
    (b"force", SIMULATED),
    (b"release", SIMULATED),
    (b"deassign", SIMULATED),
    (b"disable", SIMULATED),
    (b"wait", SIMULATED),
    (b"fork", SIMULATED),
    (b"join", SIMULATED),
];

// What is said of a reserved word.
fn word_form(word: &[u8]) -> &'static str {
    match hint_on(word, &WORDS) {
        Some(hint) => hint,
        None => part_form(word),
    }
}

const GATE: &str = "gates are left out: write an `assign`, as `assign y = a & b;`";

const NET: &str = "this kind of net is left out: declare a `wire`";

const PRIMITIVE: &str = "user primitives are left out: write a module";

const PARTS: [Hint; 20] = [
    (b"and", GATE),
    (b"nand", GATE),
    (b"nor", GATE),
    (b"not", GATE),
    (b"xor", GATE),
    (b"xnor", GATE),
    (b"buf", GATE),
    (b"tri", NET),
    (b"tri0", NET),
    (b"tri1", NET),
    (b"triand", NET),
    (b"trior", NET),
    (b"trireg", NET),
    (b"wand", NET),
    (b"wor", NET),
    (b"supply0", NET),
    (b"supply1", NET),
    (b"uwire", NET),
    (b"primitive", PRIMITIVE),
    (b"table", PRIMITIVE),
];

// What is said of the word of a gate, a primitive or a kind of net.
fn part_form(word: &[u8]) -> &'static str {
    hint_on(word, &PARTS).unwrap_or(LEFT_OUT)
}
