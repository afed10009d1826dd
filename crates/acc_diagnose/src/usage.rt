//! What is told where the words of a command line are no command.
use acc_commands_inputs::{
    LARGEST_START, MOST_CUSTOMERS, MOST_ITEMS, MOST_PIECE, MOST_TRANSACTIONS, MOST_WAREHOUSES,
    MOST_WORKERS, number_of,
};
use acc_diagnose_spot::is_one_of;
use acc_diagnose_words::{push_grouped, push_quoted, push_with};
use acc_page::Page;

/// Words by which other programs are asked for their commands.
const ASKING: [&[u8]; 3] = [b"help", b"-h", b"-?"];

/// A number that a command takes: what it is, and from which number to which it goes.
#[derive(Clone, Copy)]
struct NumberRange {
    what: &'static [u8],
    least: u64,
    most: u64,
}

/// The number of `run`.
const WORKERS: NumberRange = NumberRange {
    what: b"number of workers",
    least: 1,
    most: MOST_WORKERS,
};

/// The number of `follow`.
const PIECE: NumberRange = NumberRange {
    what: b"number of bytes",
    least: 1,
    most: MOST_PIECE,
};

/// The numbers of `tpcc mix` and of `bench`, of which the first three are those of `tpcc load`.
const MIX: [NumberRange; 5] = [
    NumberRange {
        what: b"number of warehouses",
        least: 1,
        most: MOST_WAREHOUSES,
    },
    NumberRange {
        what: b"number of items",
        least: 1,
        most: MOST_ITEMS,
    },
    NumberRange {
        what: b"number of a district's customers",
        least: 1,
        most: MOST_CUSTOMERS,
    },
    NumberRange {
        what: b"number of transactions",
        least: 0,
        most: MOST_TRANSACTIONS,
    },
    NumberRange {
        what: b"number to draw from",
        least: 0,
        most: LARGEST_START,
    },
];

/// Whether a line of the usage is about the command of this verb.
fn is_about(line: &[u8], verb: &[u8]) -> bool {
    match line.strip_prefix(b"acc ".as_slice()) {
        Some(form) => match form.strip_prefix(verb) {
            Some(rest) => rest.first() == Some(&b' '),
            None => false,
        },
        None => false,
    }
}

/// Whether the usage has a command of this verb.
fn is_command(usage: &[u8], verb: &[u8]) -> bool {
    usage
        .split(|byte| *byte == b'\n')
        .any(|line| is_about(line, verb))
}

/// Says why words that begin with this one are no command.
fn push_verb(out: &mut Page, verb: &[u8], usage: &[u8]) {
    if is_command(usage, verb) {
        out.push(b"these aren't the words that ");
        push_quoted(out, verb);
        return out.push(b" takes");
    }
    push_quoted(out, verb);
    out.push(b" is no command");
    if is_one_of(&ASKING, verb) {
        out.push(b", `--help` is");
    }
}

/// Says that the word in the place of a command's number is none.
fn push_number(out: &mut Page, command: &[u8], word: &[u8], number: NumberRange) {
    push_quoted(out, word);
    out.push(b" is no ");
    out.push(number.what);
    out.push(b": ");
    push_quoted(out, command);
    out.push(b" takes ");
    push_grouped(out, number.least);
    push_with(
        out,
        b" to ",
        number.most,
        b", in digits without a sign or a leading zero",
    );
}

/// Says which of a command's numbers isn't one that its place takes, if one isn't.
fn push_numbers(out: &mut Page, command: &[u8], words: &[String]) {
    for (word, number) in words.iter().zip(MIX.iter()) {
        if number_of(number.least, number.most, word.as_str()).is_none() {
            return push_number(out, command, word.as_bytes(), *number);
        }
    }
}

/// Says why words that begin with `tpcc` are no command.
fn push_tpcc(out: &mut Page, words: &[String], usage: &[u8]) {
    match words {
        [load, numbers @ ..] if load.as_str() == "load" && numbers.len() == 3 => {
            push_numbers(out, b"tpcc load", numbers)
        }
        [mix, numbers @ ..] if mix.as_str() == "mix" && numbers.len() == 5 => {
            push_numbers(out, b"tpcc mix", numbers)
        }
        _ => push_verb(out, b"tpcc", usage),
    }
}

/// Says why the words of a command line are no command, and which commands there are.
pub fn push_usage(out: &mut Page, words: &[String], usage: &[u8]) {
    out.push(b"acc: ");
    match words {
        [verb, _, _, _, workers] if verb.as_str() == "run" => {
            push_number(out, b"run", workers.as_bytes(), WORKERS)
        }
        [verb, _, _, _, size] if verb.as_str() == "follow" => {
            push_number(out, b"follow", size.as_bytes(), PIECE)
        }
        [verb, behind @ ..] if verb.as_str() == "tpcc" => push_tpcc(out, behind, usage),
        [verb, _, _, numbers @ ..] if verb.as_str() == "bench" && numbers.len() == 5 => {
            push_numbers(out, b"bench", numbers)
        }
        [verb, ..] => push_verb(out, verb.as_bytes(), usage),
        [] => out.push(b"no command is given, or one of the words isn't UTF-8"),
    }
    out.push(b". The commands are\n");
    out.push(usage);
}
